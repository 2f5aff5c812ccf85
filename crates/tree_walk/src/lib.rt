// A walk through a tree of records that fills no log: what it needs of a record, and what it remembers of where it has been.
#![tactic(auto)]

ghost use Rattle.std.specs.Prelude.{◌≡◌, ◌<◌};
ghost use Rattle.tree_walk.specs.Memory.{skips};
ghost use Rattle.store.specs.Lists.{parts_of};
ghost use Rattle.tree_walk.specs.Records.{parts_from};

use kinds::geometry::Stretch;
use kinds::usable;

// Consecutive records, so many from a number on.
#[derive(Clone, Copy)]
pub struct Parts {
    pub first: usize,
    pub count: u32,
}

// For each record how many levels were left, its own among them, when it was last walked through, or NONE.
pub type Marks = [u16; usable::RECORDS];

// The mark of a record that was never walked through: more than any has levels left. Its two bytes are not the same, so that
// an array of them is filled by stores; one of zeros, or of bytes, would be filled by a call of memset, and the library calls nothing.
// It is kept as a number, since is_clear takes any u16.
pub const NONE: u16 = 17;

// The parts of record n. Without a list there are none.
pub fn parts_of(list: Option<Stretch>, n: usize) -> Parts
    requires { n < 4096 }
    ensures { result ≡ parts_from n (parts_of list) }
{
    match list {
        None => Parts {
            first: n + 1,
            count: 0,
        },
        Some(Stretch { start, count }) => Parts {
            first: start as usize,
            count,
        },
    }
}

// Whether a record with such a mark was walked through with so many levels left, or fewer. 0 is no mark, as NONE is none.
pub fn is_clear(mark: u16, levels: u8) -> bool
    ensures { result ≡ skips mark levels }
{
    (0 < mark) & (mark <= levels as u16)
}
