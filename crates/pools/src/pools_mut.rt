// The six lent pools, to be written.
ghost use Rattle.std.specs.Prelude.{◌≡◌};
ghost use Rattle.store.specs.Lists.{lent_of};
ghost use Rattle.pools.specs.PoolsMut.{pools_now};

use kinds::lanes::{Lanes, Lent};

#[derive(Drop)]
pub struct PoolsMut<'a> {
    pub xy: &'a mut [u64],
    pub ends: &'a mut [u32],
    pub z: &'a mut [u64],
    pub m: &'a mut [u64],
    pub t: &'a mut [u64],
    pub tm: &'a mut [u64],
}

impl PoolsMut<'_> {
    pub fn lent(&self) -> Lent
        ensures { result ≡ lent_of (pools_now self.now) }
    {
        Lanes {
            xy: self.xy.len(),
            ends: self.ends.len(),
            z: self.z.len(),
            m: self.m.len(),
            t: self.t.len(),
            tm: self.tm.len(),
        }
    }
}
