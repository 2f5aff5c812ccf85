// The properties of a feature, read back from its property bytes.
use crate::names::write_name;
use compared::same;
use console::{Double, Float, Hex, Refused, column_type_name, write_text};
use event_log::VALUE_BYTES;
use job_file::Columns;
use kinds::column_type;
use kinds::value::Value;
use numbers::{u16_at, u32_at, u64_at};
use std::io;

fn value_of(record: &[u8; VALUE_BYTES]) -> Value {
    Value {
        column: u16_at(record, 0),
        kind: record[2],
        len: u32_at(record, 4),
        word: u64_at(record, 8),
    }
}

fn write_number<W: io::Write>(out: &mut W, kind: u8, word: u64) -> io::Result<()> {
    match kind {
        column_type::BOOL => write!(out, "{}", if word == 0 { "no" } else { "yes" }),
        column_type::BYTE => write!(out, "{}", ((word & 0xff) as u8).cast_signed()),
        column_type::SHORT => write!(out, "{}", ((word & 0xffff) as u16).cast_signed()),
        column_type::INT => write!(out, "{}", ((word & 0xffff_ffff) as u32).cast_signed()),
        column_type::LONG => write!(out, "{}", word.cast_signed()),
        column_type::FLOAT => write!(out, "{}", Float((word & 0xffff_ffff) as u32)),
        column_type::DOUBLE => write!(out, "{}", Double(word)),
        _ => write!(out, "{word}"),
    }
}

// What has a length stands in the property bytes.
fn bytes_of(value: Value, bytes: &[u8]) -> Option<&[u8]> {
    let start = value.word as usize;
    let end = start.checked_add(value.len as usize)?;
    bytes.get(start..end)
}

fn write_bytes<W: io::Write>(out: &mut W, kind: u8, bytes: &[u8]) -> io::Result<()> {
    if kind == column_type::BINARY {
        return write!(out, "{}", Hex(bytes));
    }
    write_text(out, bytes)
}

fn write_value<W: io::Write>(out: &mut W, value: Value, bytes: &[u8]) -> io::Result<()> {
    if value.kind < column_type::STRING {
        return write_number(out, value.kind, value.word);
    }
    match bytes_of(value, bytes) {
        Some(stretch) => write_bytes(out, value.kind, stretch),
        None => Ok(()),
    }
}

fn show_value<W: io::Write>(
    out: &mut W,
    value: Value,
    bytes: &[u8],
    columns: &Columns,
) -> io::Result<()> {
    write!(out, "  ")?;
    write_name(out, columns, value.column)?;
    write!(out, " ({}): ", column_type_name(value.kind))?;
    write_value(out, value, bytes)?;
    writeln!(out, "")
}

// Compares the values that were read back with those that were given, and shows them.
fn show_values<W: io::Write>(
    out: &mut W,
    given: &[u8],
    read: &[u8],
    bytes: &[u8],
    columns: &Columns,
) -> io::Result<()> {
    if !same(given, read) {
        writeln!(out, "  the properties COME BACK DIFFERENT:")?;
    }
    for record in read.chunks_exact(VALUE_BYTES) {
        if let Some(record) = record.first_chunk::<VALUE_BYTES>() {
            show_value(out, value_of(record), bytes, columns)?;
        }
    }
    Ok(())
}

// So many values of the log were read back from the property bytes.
pub fn show_properties<W: io::Write>(
    out: &mut W,
    read: Result<usize, Refused>,
    given: &[u8],
    log: &[u8],
    bytes: &[u8],
    columns: &Columns,
) -> io::Result<()> {
    match read {
        Err(refused) => writeln!(out, "  no properties, reading them back is {refused}"),
        Ok(count) => {
            let end = count.saturating_mul(VALUE_BYTES);
            let read = log.get(..end).unwrap_or(log);
            show_values(out, given, read, bytes, columns)
        }
    }
}
