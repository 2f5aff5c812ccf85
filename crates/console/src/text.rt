// Bytes of a job, as text and in hexadecimal.
use std::{fmt, io};

// Text of the job, which may be any bytes. A control byte is spelled, so that no text can look like a line of the map.
pub fn write_text<W: io::Write>(out: &mut W, text: &[u8]) -> io::Result<()> {
    for byte in text {
        if byte.is_ascii_control() {
            write!(out, "\\x{byte:02x}")?;
        } else {
            out.write_all(&[*byte])?;
        }
    }
    Ok(())
}

#[derive(Clone, Copy)]
pub struct Hex<'a>(pub &'a [u8]);

impl fmt::Display for Hex<'_> {
    fn fmt<W: fmt::Write>(&self, f: &mut fmt::Formatter<W>) -> fmt::Result {
        for byte in self.0 {
            write!(f, "{byte:02x}")?;
        }
        Ok(())
    }
}
