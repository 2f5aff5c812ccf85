// The input, read from its start on: at each time what is next and no more, so that what stands behind a job is left to be read.
ghost use Rattle.std.specs.Prelude.{◌≤◌, length};

use crate::fault::{Fault, Wrong};
use std::io::Read;

// Where the next byte stands is counted from 0.
#[derive(Drop)]
pub struct Source<R: Read> {
    input: R,
    place: u64,
}

impl<R: Read> Source<R> {
    pub fn new(input: R) -> Source<R> {
        Source { input, place: 0 }
    }

    pub fn place(&self) -> u64 {
        self.place
    }

    // How many bytes there were: fewer than there is room for only at the input's end. A read that fails is its end.
    fn fill(&mut self, room: &mut [u8]) -> usize
        ensures { result ≤ length room.new }
    {
        let mut got = 0;
        while got < room.len() {
            match self.input.read(&mut room[got..]) {
                Ok(more) if more > 0 => got += more,
                _ => break,
            }
        }
        self.place = self.place.wrapping_add(got as u64);
        got
    }

    // An input that is cut short is wrong at its end.
    pub fn fill_all(&mut self, room: &mut [u8], cut: Wrong) -> Result<(), Fault> {
        if self.fill(room) < room.len() {
            return Err(Fault {
                wrong: cut,
                place: self.place,
            });
        }
        Ok(())
    }

    pub fn next<const N: usize>(&mut self, cut: Wrong) -> Result<[u8; N], Fault> {
        let mut bytes = [0u8; N];
        self.fill_all(&mut bytes, cut)?;
        Ok(bytes)
    }

    pub fn next_byte(&mut self) -> Option<u8> {
        let mut byte = [0u8; 1];
        if self.fill(&mut byte) == 0 {
            None
        } else {
            Some(byte[0])
        }
    }
}
