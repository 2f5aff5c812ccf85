// The 16-byte value record.
ghost use Rattle.std.specs.Prelude.{◌≡◌, length};
ghost use Rattle.event_layout.specs.Value.{value_bytes};

use kinds::value::Value;
use numbers::{put_u16, put_u32, put_u64};

pub fn put_value(bytes: &mut [u8], v: Value)
    requires { length bytes.old ≡ 16 }
    ensures { bytes.new ≡ value_bytes v }
{
    put_u16(bytes, 0, v.column);
    put_u16(bytes, 2, v.kind as u16);
    put_u32(bytes, 4, v.len);
    put_u64(bytes, 8, v.word);
}
