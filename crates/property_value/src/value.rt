// Which bits and bytes are a value of a column type, and the word that a number is read to.
ghost use Rattle.std.specs.Prelude.{◌≡◌};
ghost use Rattle.kinds.specs.ColumnType.{type_number};
ghost use Rattle.property_value.specs.Value.{malformed, Checked, word_of};

use crate::column::is_text;
use kinds::column_type::ColumnType;
use utf8::first_bad;

// The most that the bits of a value are, by the type's number. Eight bytes hold any bits, and those of a value with
// a length first are passed over.
const MOST: [u64; 15] = [
    0xff, // Byte
    0xff, // UByte
    1, // Bool
    0xffff, // Short
    0xffff, // UShort
    0xffff_ffff, // Int
    0xffff_ffff, // UInt
    u64::MAX, // Long
    u64::MAX, // ULong
    0xffff_ffff, // Float
    u64::MAX, // Double
    u64::MAX, // String
    u64::MAX, // Json
    u64::MAX, // DateTime
    u64::MAX, // Binary
];

// A value of no type is malformed whatever its bits are.
pub fn is_malformed(kind: u8, bits: u64) -> bool
    ensures { result ≡ malformed kind bits }
{
    match ColumnType::try_from(kind) {
        Ok(kind) => bits > MOST[kind.number() as usize],
        Err(_) => true,
    }
}

// Any byte but 0 is a true Bool.
#[tactic(auto, unfolding(crate::specs::Value::word_of))]
pub fn word_of(kind: ColumnType, bits: u64) -> u64
    ensures { result ≡ word_of (type_number kind) bits }
{
    match kind {
        ColumnType::Bool => (bits != 0) as u64,
        _ => bits,
    }
}

// Where a value's bytes cease to be what its type holds them to be. Binary may hold any bytes, and so may a value of no type.
pub fn bad_text(kind: u8, text: &[u8]) -> Option<usize>
    ensures { Checked kind text.now result }
{
    let Ok(kind) = ColumnType::try_from(kind) else {
        return None;
    };
    if is_text(kind) { first_bad(text) } else { None }
}
