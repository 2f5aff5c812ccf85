// Room: the lesser of what is lent and what is usable.
ghost use Rattle.std.specs.Prelude.{◌≡◌, cond, ◌+◌, ◌≤◌};
ghost use Rattle.pending.specs.Words.{used};
ghost use Rattle.pending.specs.Room.{room_in, has_room};

use crate::growth::{count_if, counts};
use crate::words::{Pending, Words};
use asking::ask::Added;
use kinds::lanes::{Lent, USABLE};
use kinds::usable;

pub fn room_in(n: usize, count: usize, most: usize) -> bool
    ensures { result ≡ room_in n count most }
{
    (n <= count) & (n <= most)
}

pub fn lane_room(p: Words, on: bool, n: u32, count: usize, most: usize) -> bool
    requires { n ≤ 2 }
    ensures { result ≡ room_in (used p + cond on n 0) count most }
{
    room_in(p.used() + (count_if(on, n) as usize), count, most)
}

// Room for all that is pending, for the words that are added and for a number of records.
#[tactic(auto, unfolding(crate::specs::Room::has_room))]
pub fn has_room(p: Pending, a: Added, needed: usize, records: usize, pools: Lent) -> bool
    ensures { result ≡ has_room p a needed records pools }
{
    let ends = p.zip_with(counts(a), |words, n| words.used() + n as usize);
    room_in(needed, records, usable::RECORDS) & ends.within(pools) & ends.within(USABLE)
}
