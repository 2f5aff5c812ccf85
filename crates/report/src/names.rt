// The name of a column, and a text of it that is not UTF-8.
use console::write_text;
use job_file::Columns;
use std::io;

// With its number, since nothing says that a name stands for one column alone.
pub fn write_name<W: io::Write>(out: &mut W, columns: &Columns, column: u16) -> io::Result<()> {
    write!(out, "column {column} ")?;
    write_text(out, columns.name(column))
}

// At the place stands the first byte that begins no character.
pub fn show_bad_text<W: io::Write>(
    out: &mut W,
    columns: &Columns,
    column: u16,
    text: &[u8],
    place: usize,
) -> io::Result<()> {
    write!(out, "  ")?;
    write_name(out, columns, column)?;
    write!(out, ": not UTF-8 at byte {place}")?;
    if let Some(byte) = text.get(place) {
        write!(out, " (0x{byte:02x})")?;
    }
    writeln!(out, "")
}
