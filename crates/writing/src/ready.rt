// Whether a writer is ready, and what a begin or an end asks for beyond that.
ghost use Rattle.std.specs.Prelude.{◌≡◌};
ghost use Rattle.writing.specs.State.{records_used};
ghost use Rattle.writing.specs.Calls.{records_for, is_ready};
ghost use Rattle.writing.specs.Other.{other_room};

use crate::state::State;
use asking::ask::{Ask, NO_WORDS};
use kinds::lanes::Lent;
use kinds::usable;
use pending::room::{has_room, lane_room, room_in};
use pending::words::Words;

pub fn records_used(s: State) -> usize
    ensures { result ≡ records_used s }
{
    if s.waiting | !(s.parts == 0) {
        (s.parts as usize) + 1
    } else {
        0
    }
}

pub fn records_for(s: State, a: Ask) -> usize
    ensures { result ≡ records_for s a }
{
    if a.part {
        (s.parts as usize) + 2
    } else {
        records_used(s)
    }
}

// Whose turn it is, and room for what the state already uses: judged once a call.
pub fn is_ready(s: State, records: usize, pools: Lent) -> bool
    ensures { result ≡ is_ready s records pools }
{
    !s.waiting & has_room(s.pending, NO_WORDS, records_used(s), records, pools)
}

// Room for what a begin or an end adds.
pub fn other_room(s: State, a: Ask, records: usize, ends: usize) -> bool
    ensures { result ≡ other_room s a records ends }
{
    room_in(records_for(s, a), records, usable::RECORDS)
        & lane_room(
            s.pending.ends,
            a.added.ends,
            Words::ONE,
            ends,
            usable::POOL_WORDS,
        )
}
