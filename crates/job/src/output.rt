use std::io;
use std::io::Write;

// A writer that passes over what could not be written: the program goes on as if it had been.
#[derive(Drop)]
pub struct Output<W: Write + Drop> {
    to: W,
}

impl<W: Write + Drop> Output<W> {
    pub fn new(to: W) -> Output<W> {
        Output { to }
    }
}

impl<W: Write + Drop> Write for Output<W> {
    fn write(&mut self, bytes: &[u8]) -> io::Result<usize> {
        let _ = self.to.write_all(bytes);
        Ok(bytes.len())
    }

    fn flush(&mut self) -> io::Result<()> {
        let _ = self.to.flush();
        Ok(())
    }
}
