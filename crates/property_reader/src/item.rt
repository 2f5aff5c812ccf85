// What stands at a place of property bytes.
ghost use Rattle.std.specs.Prelude.{◌≡◌, true, ◌+◌, ◌≤◌, length};
ghost use Rattle.kinds.specs.ColumnType.{type_number};
ghost use Rattle.laws.specs.Bytes.{word_at};
ghost use Rattle.property_value.specs.Column.{width_of, is_width};
ghost use Rattle.property_reader.specs.Reading.{item_as, place_as, number_at, text_at, bytes_at, value_at, item_at};

use kinds::column_type::ColumnType;
use kinds::refusal::Refusal;
use kinds::value::Value;
use numbers::{u16_at, u32_at, u64_at};
use property_value::{PropertyRefusal, bad_text, width, word_of};

// A property that stands there: its value, which one of no column type has not, and where the next property starts.
#[derive(Clone, Copy)]
pub struct Property {
    pub value: Option<Value>,
    pub next: usize,
}

// None where the bytes are read to their end. One trailing byte is no property. It is inlined, as
// value_at(), number_at(), text_at() and bytes_at() are: LLVM then takes fewer instructions for a property.
#[inline(always)]
pub fn property_at(
    bytes: &[u8],
    columns: &[u8],
    at: usize,
) -> Result<Option<Property>, PropertyRefusal>
    requires { at ≤ length bytes.now }
    ensures { place_as result ≡ item_at bytes.now columns.now at }
{
    if bytes.len() - at < 2 {
        return Ok(None);
    }
    let column = u16_at(bytes, at);
    let index = column as usize;
    if index >= columns.len() {
        return Err(PropertyRefusal::Other(Refusal::Missing));
    }
    let property = value_at(bytes, column, columns[index], at + 2)?;
    Ok(Some(property))
}

#[inline(always)]
fn value_at(bytes: &[u8], column: u16, kind: u8, at: usize) -> Result<Property, PropertyRefusal>
    requires { at ≤ length bytes.now }
    ensures { item_as result ≡ value_at bytes.now column kind at }
{
    let Ok(kind) = ColumnType::try_from(kind) else {
        return Ok(Property {
            value: None,
            next: at,
        });
    };
    match width(kind) {
        Some(len) => number_at(bytes, column, kind, len, at),
        None => text_at(bytes, column, kind, at),
    }
}

#[inline(always)]
fn number_at(
    bytes: &[u8],
    column: u16,
    kind: ColumnType,
    len: usize,
    at: usize,
) -> Result<Property, PropertyRefusal>
    requires { (at ≤ length bytes.now) × (type_number kind ≤ 10) × (len ≡ width_of (type_number kind)) }
    ensures { item_as result ≡ number_at bytes.now column (type_number kind) at }
{
    if bytes.len() - at < len {
        return Err(PropertyRefusal::Other(Refusal::ValueCut));
    }
    let word = word_of(kind, bits_at(bytes, at, len));
    let value = Value {
        column,
        kind: kind.number(),
        len: len as u32,
        word,
    };
    Ok(Property {
        value: Some(value),
        next: at + len,
    })
}

// One routine for each width, and no loop over the bytes. A width is a number, since it is a count of bytes that is added to places.
fn bits_at(bytes: &[u8], at: usize, len: usize) -> u64
    requires { (is_width len ≡ true) × (at + len ≤ length bytes.now) }
    ensures { result ≡ word_at len bytes.now at }
{
    match len {
        1 => bytes[at] as u64,
        2 => u16_at(bytes, at) as u64,
        4 => u32_at(bytes, at) as u64,
        _ => u64_at(bytes, at),
    }
}

// A value with a length first.
#[inline(always)]
fn text_at(
    bytes: &[u8],
    column: u16,
    kind: ColumnType,
    at: usize,
) -> Result<Property, PropertyRefusal>
    requires { at ≤ length bytes.now }
    ensures { item_as result ≡ text_at bytes.now column (type_number kind) at }
{
    if bytes.len() - at < 4 {
        return Err(PropertyRefusal::Other(Refusal::ValueCut));
    }
    bytes_at(bytes, column, kind, at + 4, u32_at(bytes, at))
}

#[inline(always)]
fn bytes_at(
    bytes: &[u8],
    column: u16,
    kind: ColumnType,
    start: usize,
    len: u32,
) -> Result<Property, PropertyRefusal>
    requires { start ≤ length bytes.now }
    ensures { item_as result ≡ bytes_at bytes.now column (type_number kind) start len }
{
    let count = len as usize;
    if bytes.len() - start < count {
        return Err(PropertyRefusal::Other(Refusal::ValueCut));
    }
    let end = start + count;
    let kind = kind.number();
    if let Some(place) = bad_text(kind, &bytes[start..end]) {
        return Err(PropertyRefusal::NotUtf8(place));
    }
    let value = Value {
        column,
        kind,
        len,
        word: start as u64,
    };
    Ok(Property {
        value: Some(value),
        next: end,
    })
}
