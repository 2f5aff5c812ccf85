// A finished feature, and why there is no map of it.
use std::fmt;

// So many events of a feature are kept to be compared.
pub const KEPT: usize = 16384;

#[derive(Clone, Copy, Debug, PartialEq, Eq)]
pub struct Feature {
    // As people count.
    pub ordinal: u64,
    // Its own number, which is known where an event of it was taken.
    pub number: Option<u32>,
    pub events: usize,
    // Whether anything of it was refused.
    pub refused: bool,
}

impl fmt::Display for Feature {
    fn fmt<W: fmt::Write>(&self, f: &mut fmt::Formatter<W>) -> fmt::Result {
        let ordinal = self.ordinal;
        write!(f, "feature {ordinal}")?;
        match self.number {
            Some(number) => write!(f, ", number {number}"),
            None => Ok(()),
        }
    }
}

#[derive(Clone, Copy, Debug, PartialEq, Eq)]
pub enum NoMap {
    Refused,
    Empty,
    Long,
}

impl fmt::Display for NoMap {
    fn fmt<W: fmt::Write>(&self, f: &mut fmt::Formatter<W>) -> fmt::Result {
        f.write_str(match self {
            NoMap::Refused => "since something of it was REFUSED",
            NoMap::Empty => "it has no events",
            NoMap::Long => "it has more events than are kept to be compared",
        })
    }
}

impl Feature {
    // There may be a map only of what was taken whole and kept.
    pub fn is_kept(self) -> Result<(), NoMap> {
        if self.refused {
            Err(NoMap::Refused)
        } else if self.events == 0 {
            Err(NoMap::Empty)
        } else if self.events > KEPT {
            Err(NoMap::Long)
        } else {
            Ok(())
        }
    }
}
