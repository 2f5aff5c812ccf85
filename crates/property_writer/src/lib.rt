// A property written after those before it in a buffer.
#![tactic(auto)]

mod lay;

ghost use Rattle.std.specs.Prelude.{◌≡◌};
ghost use Rattle.kinds.specs.ColumnType.{type_number};
ghost use Rattle.property_value.specs.Refused.{Told};
ghost use Rattle.property_value.specs.Value.{Checked};
ghost use Rattle.property_writer.specs.Writing.{put_as, put_of, bytes_after, property_length, Judged};

use kinds::column_type::ColumnType;
use kinds::refusal::Refusal;
use lay::lay_property;
use property_value::{PropertyRefusal, bad_text, is_malformed, usable_length, width};

// A property to be written, as the caller gives it: the text of a number and the bits of a text are passed over.
#[derive(Clone, Copy)]
pub struct Property<'a> {
    pub column: u32,
    pub kind: u8,
    pub bits: u64,
    pub text: &'a [u8],
}

// Answers how many bytes of the buffer are used then.
pub fn put_property(
    waiting: bool,
    used: u32,
    property: Property,
    buffer: &mut [u8],
) -> Result<u32, PropertyRefusal>
    ensures answer { let p = property.entry in
        put_as used result ≡ put_of waiting used p.column p.kind p.bits p.text.now buffer.old }
    ensures bytes { let p = property.entry in
        buffer.new ≡ bytes_after waiting used p.column p.kind p.bits p.text.now buffer.old }
    ensures told { Told result }
{
    let kind = judge(waiting, used, property, buffer.len())?;
    lay_property(
        used as usize,
        property.column as u16,
        property.kind,
        property.bits,
        property.text,
        buffer,
    );
    Ok(used + property_length(kind, property.text) as u32)
}

// The type of a property that may be written: all is settled here, so that a refused write changes nothing.
// A text is read before its room is asked about, since that is the order of the refusals.
fn judge(
    waiting: bool,
    used: u32,
    property: Property,
    lent: usize,
) -> Result<ColumnType, PropertyRefusal>
    ensures { let p = property.entry in
        Judged waiting used p.column p.kind p.bits p.text.now lent result }
{
    if waiting {
        return Err(PropertyRefusal::Other(Refusal::NotItsTurn));
    }
    if property.column > 65535 {
        return Err(PropertyRefusal::Other(Refusal::ColumnTooLarge));
    }
    let Ok(kind) = ColumnType::try_from(property.kind) else {
        return Err(PropertyRefusal::Other(Refusal::Malformed));
    };
    if is_malformed(property.kind, property.bits) {
        return Err(PropertyRefusal::Other(Refusal::Malformed));
    }
    if let Some(place) = bad_if_text(property.kind, property.text) {
        return Err(PropertyRefusal::NotUtf8(place));
    }
    if used as usize + property_length(kind, property.text) > usable_length(lent) {
        return Err(PropertyRefusal::Other(Refusal::NoRoom));
    }
    Ok(kind)
}

// A number has no text, and is spared the call.
fn bad_if_text(kind: u8, text: &[u8]) -> Option<usize>
    ensures { Checked kind text.now result }
{
    if kind < ColumnType::String.number() {
        return None;
    }
    bad_text(kind, text)
}

fn property_length(kind: ColumnType, text: &[u8]) -> usize
    ensures { result ≡ property_length (type_number kind) text.now }
{
    match width(kind) {
        Some(width) => 2 + width,
        None => 2 + 4 + text.len(),
    }
}
