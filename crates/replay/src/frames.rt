use crate::packed::unpack;
use std::io;
use std::io::{ErrorKind, Read};

/// Cases one behind the other, each a frame: a length in four bytes, then so many bytes, in which zeros are packed.
#[derive(Drop)]
pub struct Frames<R> {
    input: R,
    room: Vec<u8>,
}

impl<R: Read> Frames<R> {
    /// Frames that are no longer than this room.
    pub fn new(input: R, room: Vec<u8>) -> Frames<R> {
        Frames { input, room }
    }

    /// The next case, or none where the input ends, as it does where it cannot be read. An input that ends within a frame is an error.
    pub fn next_case(&mut self) -> io::Result<Option<&[u8]>> {
        let mut length = [0; 4];
        let Ok(got @ 1..) = self.input.read(&mut length) else {
            return Ok(None);
        };
        self.input.read_exact(&mut length[got..])?;
        let from = self.read_packed(u32::from_le_bytes(length) as usize)?;
        let length = unpack(self.room.as_mut_slice(), from);
        Ok(self.room.get(..length))
    }

    // Packed bytes are read to the room's end. Says where they start.
    fn read_packed(&mut self, length: usize) -> io::Result<usize> {
        let Some(from) = self.room.len().checked_sub(length) else {
            return Err(io::Error::from(ErrorKind::InvalidData));
        };
        self.input.read_exact(&mut self.room[from..])?;
        Ok(from)
    }
}
