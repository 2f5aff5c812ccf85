// The lent pools that a run writes.
ghost use Rattle.std.specs.Prelude.{◌≡◌, []};
ghost use Rattle.runs.specs.Run.{lent_with, values_now};

use kinds::lanes::{Lanes, Lent};

// Pairs and values, and not the ends, since no plain event adds one.
#[derive(Drop)]
pub struct ValuesMut<'a> {
    pub xy: &'a mut [u64],
    pub z: &'a mut [u64],
    pub m: &'a mut [u64],
    pub t: &'a mut [u64],
    pub tm: &'a mut [u64],
}

impl ValuesMut<'_> {
    // None of the ends is asked for.
    pub fn lent(&self) -> Lent
        ensures { result ≡ lent_with [] (values_now self.now) }
    {
        Lanes {
            xy: self.xy.len(),
            ends: 0,
            z: self.z.len(),
            m: self.m.len(),
            t: self.t.len(),
            tm: self.tm.len(),
        }
    }
}
