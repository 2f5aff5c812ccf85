// A job's head: JOB1, the declared type, detect, promote, the flags of reading, how many columns.
use crate::fault::{Fault, Wrong};
use crate::source::Source;
use kinds::geometry_type;
use std::io::Read;

const BYTES: usize = 9;

#[derive(Clone, Copy)]
pub struct Head {
    pub declared: u8,
    pub detect: bool,
    pub promote: bool,
    pub flags: u8,
    // How many columns follow.
    pub columns: usize,
}

// The flags of z, m, t and tm are one bit each.
const MOST_FLAGS: u8 = 15;

fn at_most(byte: u8, most: u8, wrong: Wrong, place: u64) -> Result<(), Fault> {
    if byte > most {
        Err(Fault { wrong, place })
    } else {
        Ok(())
    }
}

impl Head {
    pub fn read<R: Read>(source: &mut Source<R>) -> Result<Head, Fault> {
        let [j, o, b, one, declared, detect, promote, flags, columns] = source.next::<BYTES>(
            Wrong::CutHead,
        )?;
        if [j, o, b, one] != *b"JOB1" {
            return Err(Fault {
                wrong: Wrong::NoMark,
                place: 0,
            });
        }
        at_most(declared, geometry_type::TRIANGLE, Wrong::NoType, 4)?;
        at_most(detect, 1, Wrong::BadDetect, 5)?;
        at_most(promote, 1, Wrong::BadPromote, 6)?;
        at_most(flags, MOST_FLAGS, Wrong::NoFlags, 7)?;
        Ok(Head {
            declared,
            detect: detect == 1,
            promote: promote == 1,
            flags,
            columns: usize::from(columns),
        })
    }
}
