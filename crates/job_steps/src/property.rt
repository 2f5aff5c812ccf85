// A property is given to the library.
use crate::in_hand::InHand;
use console::Refused;
use event_layout::put_value;
use event_log::VALUE_BYTES;
use job_calls::{BadValue, Library};
use job_file::{Columns, Property};
use kinds::column_type;
use kinds::value::Value;
use report::show_bad_text;
use std::io;

// What stands before a number in property bytes, and before a text.
const INDEX: u32 = 2;

const INDEX_AND_LENGTH: u32 = 6;

fn column_of(property: &Property<'_>) -> u16 {
    (property.column % 65536) as u16
}

// The value as it is to come back, from how many property bytes there were before it and after it.
fn value_of(property: &Property<'_>, before: u32, after: u32) -> Value {
    let column = column_of(property);
    let kind = property.kind;
    let added = after.wrapping_sub(before);
    if kind < column_type::STRING {
        return Value {
            column,
            kind,
            len: added.wrapping_sub(INDEX),
            word: property.bits,
        };
    }
    Value {
        column,
        kind,
        len: added.wrapping_sub(INDEX_AND_LENGTH),
        word: u64::from(before.wrapping_add(INDEX_AND_LENGTH)),
    }
}

fn write_refused<W: io::Write>(
    out: &mut W,
    hand: &InHand,
    property: &Property<'_>,
    columns: &Columns,
    bad: BadValue,
) -> io::Result<()> {
    let ordinal = hand.ordinal();
    let count = hand.properties();
    let refused = bad.refused;
    writeln!(out, "feature {ordinal}, property {count}: {refused}")?;
    if refused == Refused::NOT_UTF8 {
        show_bad_text(out, columns, column_of(property), property.text, bad.place)?;
    }
    Ok(())
}

// A value laid down as another type than its column's would be read as what it is not.
fn refuse_type<W: io::Write>(out: &mut W, hand: &mut InHand) -> io::Result<()> {
    hand.count_property();
    hand.refuse();
    let ordinal = hand.ordinal();
    let count = hand.properties();
    writeln!(
        out,
        "feature {ordinal}, property {count}: REFUSED by this program, its column is missing or of another type"
    )
}

pub fn take_property<W: io::Write>(
    out: &mut W,
    hand: &mut InHand,
    library: &mut Library,
    columns: &Columns,
    property: &Property<'_>,
) -> io::Result<()> {
    if !columns.has(property.column, property.kind) {
        return refuse_type(out, hand);
    }
    let before = library.property_bytes();
    let answer = library.property(property.column, property.kind, property.bits, property.text);
    let mut value = [0u8; VALUE_BYTES];
    put_value(
        &mut value,
        value_of(property, before, library.property_bytes()),
    );
    hand.put_value(&value);
    match answer {
        Ok(()) => Ok(()),
        Err(bad) => {
            hand.refuse();
            write_refused(out, hand, property, columns, bad)
        }
    }
}
