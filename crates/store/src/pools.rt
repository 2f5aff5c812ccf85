// What is lent to be read: pools of words, and a table of geometry records whose lists lie in them.
ghost use Rattle.std.specs.Prelude.{◌≡◌, length};
ghost use Rattle.store.specs.Lists.{lent_of, pools_in};
ghost use Rattle.store.specs.Lone.{LoneAt};
ghost use Rattle.store.specs.Records.{record_at};

use crate::records::{lone_list_at, record_at};
use kinds::geometry::{Geometry, Stretch};
use kinds::lanes::{Lanes, Lent};

#[derive(Clone, Copy)]
pub struct Pools<'a> {
    pub xy: &'a [u64],
    pub ends: &'a [u32],
    pub z: &'a [u64],
    pub m: &'a [u64],
    pub t: &'a [u64],
    pub tm: &'a [u64],
}

#[derive(Clone, Copy)]
pub struct Store<'a> {
    pub table: &'a [u8],
    pub pools: Pools<'a>,
}

impl<'a> Pools<'a> {
    // How many words of each pool are lent.
    pub fn lent(&self) -> Lent
        ensures { result ≡ lent_of (pools_in self.now) }
    {
        Lanes {
            xy: self.xy.len(),
            ends: self.ends.len(),
            z: self.z.len(),
            m: self.m.len(),
            t: self.t.len(),
            tm: self.tm.len(),
        }
    }
}

impl<'a> Store<'a> {
    // The record with a number, its lists as stretches of the pools.
    pub fn record(&self, n: usize) -> Option<Geometry>
        ensures { result ≡ record_at self.now.table.now (lent_of (pools_in self.now.pools)) n }
    {
        record_at(self.table, self.pools.lent(), n)
    }

    // The list of the record with a number, where it is an xy list and the record has no other: a quick way to what `record` says of it.
    pub fn lone_list(&self, n: usize) -> Option<Stretch>
        ensures { LoneAt self.now.table.now (length self.now.pools.xy.now) n result }
    {
        lone_list_at(self.table, self.pools.xy.len(), n)
    }
}
