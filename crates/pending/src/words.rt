// The words that belong to no part yet.
ghost use Rattle.std.specs.Prelude.{◌≡◌, ◌+◌, ◌≤◌, ◌<◌};
ghost use Rattle.pending.specs.Words.{used};
ghost use Rattle.pending.specs.Growth.{grown, past, fronted, listed, shown};

use kinds::geometry::Stretch;
use kinds::lanes::Lanes;

// A stretch of one pool's words. It is no geometry::Stretch, which says where a record's list stands: these words are no list yet.
#[derive(Clone, Copy, Debug, PartialEq, Eq)]
pub struct Words {
    pub start: u32,
    pub count: u32,
}

// The words of each pool that belong to no part yet; the words before them belong to the parts.
pub type Pending = Lanes<Words>;

impl Words {
    // Added at once: a pair to xy, one word to each other pool.
    pub const PAIR: u32 = 2;

    pub const ONE: u32 = 1;

    pub const AT_ONCE: Lanes<u32> = Lanes {
        xy: Words::PAIR,
        ends: Words::ONE,
        z: Words::ONE,
        m: Words::ONE,
        t: Words::ONE,
        tm: Words::ONE,
    };

    // The longest list that a finished part leaves out.
    pub const OMITTED: u32 = 0;

    pub const OMITTED_ENDS: u32 = 1;

    pub const OMITTED_IN: Lanes<u32> = Lanes {
        xy: Words::OMITTED,
        ends: Words::OMITTED_ENDS,
        z: Words::OMITTED,
        m: Words::OMITTED,
        t: Words::OMITTED,
        tm: Words::OMITTED,
    };

    // A pool is used up to its last pending word.
    pub fn used(self) -> usize
        ensures is { result ≡ used self }
        ensures small { result ≤ 8589934592 }
    {
        (self.start as usize) + (self.count as usize)
    }

    pub fn grown(self, n: u32) -> Words
        requires { self.count + n < 4294967296 }
        ensures { result ≡ grown self n }
    {
        Words {
            count: self.count + n,
            ..self
        }
    }

    // The words behind a finished part, which takes all that it does not leave out.
    pub fn past(self, omitted: u32) -> Words
        requires { used self ≤ 131072 }
        ensures { result ≡ past self omitted }
    {
        let taken = if self.count <= omitted { 0 } else { self.count };
        Words {
            start: self.start + taken,
            count: 0,
        }
    }

    pub fn fronted(self) -> Words
        ensures { result ≡ fronted self }
    {
        Words { start: 0, ..self }
    }

    pub fn listed(self) -> Option<Stretch>
        ensures { result ≡ listed self }
    {
        Some(Stretch {
            start: self.start,
            count: self.count,
        })
    }

    pub fn shown(self, omitted: u32) -> Option<Stretch>
        ensures { result ≡ shown self omitted }
    {
        if self.count <= omitted {
            None
        } else {
            self.listed()
        }
    }
}
