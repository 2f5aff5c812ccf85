// An accepted property laid down: its column's index in two bytes, then its value.
ghost use Rattle.std.specs.Prelude.{◌≡◌, true, ◌+◌, ◌^◌, ◌≤◌, ◌<◌, length};
ghost use Rattle.std.proofs.lemmas.List.Edits.{sets};
ghost use Rattle.laws.specs.Bytes.{le};
ghost use Rattle.property_value.specs.Column.{WidthIs, is_width};
ghost use Rattle.property_writer.specs.Writing.{text_bytes, laid_down, property_bytes, Exact};

use kinds::column_type::ColumnType;
use numbers::{put_u16, put_u32, put_u64};
use property_value::width;

// What lies past the index is lent to the value writer.
pub fn lay_property(at: usize, column: u16, kind: u8, bits: u64, text: &[u8], buffer: &mut [u8])
    requires text_in_bounds { at + length (property_bytes column kind bits text.now) ≤ length buffer.old }
    requires exact { Exact kind bits text.now }
    ensures { buffer.new ≡ sets buffer.old at (property_bytes column kind bits text.now) }
{
    put_u16(buffer, at, column);
    let after_index = at + 2;
    put_value(kind, bits, text, &mut buffer[after_index..]);
}

fn put_value(kind: u8, bits: u64, text: &[u8], out: &mut [u8])
    requires text_in_bounds { length (laid_down kind bits text.now) ≤ length out.old }
    requires exact { Exact kind bits text.now }
    ensures { out.new ≡ sets out.old 0 (laid_down kind bits text.now) }
{
    match number_width(kind) {
        Some(width) => put_number(width, bits, out),
        None => put_text(text, out),
    }
}

// A number's width. A value of no type would be laid down as a text is, but no property of such a type is accepted.
fn number_width(kind: u8) -> Option<usize>
    ensures { WidthIs kind result }
{
    match ColumnType::try_from(kind) {
        Ok(kind) => width(kind),
        Err(_) => None,
    }
}

// Each width has a routine of its own.
fn put_number(width: usize, bits: u64, out: &mut [u8])
    requires { (is_width width ≡ true) × (bits < 256 ^ width) × (width ≤ length out.old) }
    ensures { out.new ≡ sets out.old 0 (le width bits) }
{
    match width {
        1 => out[0] = bits as u8,
        2 => put_u16(out, 0, bits as u16),
        4 => put_u32(out, 0, bits as u32),
        _ => put_u64(out, 0, bits),
    }
}

fn put_text(text: &[u8], out: &mut [u8])
    requires { (4 + length text.now ≤ length out.old) × (length text.now < 256 ^ 4) }
    ensures { out.new ≡ sets out.old 0 (text_bytes text.now) }
{
    put_u32(out, 0, text.len() as u32);
    put_bytes(out, 4, text);
}

// A loop, since of copy_from_slice LLVM makes a call of memmove.
fn put_bytes(s: &mut [u8], at: usize, bytes: &[u8])
    requires { at + length bytes.now ≤ length s.old }
    ensures { s.new ≡ sets s.old at bytes.now }
{
    for i in 0..bytes.len() {
        s[at + i] = bytes[i];
    }
}
