// A run of plain events: pairs, coordinates, and begins that set no type. They change no typing and finish no part, so that
// each is a test of room and a word or two.
ghost use Rattle.std.specs.Prelude.{◌≡◌, true, cond, [], ◌∷◌, ◌/◌, ◌≤◌, length};
ghost use Rattle.std.proofs.lemmas.List.Edits.{sets};
ghost use Rattle.pending.specs.Words.{used};
ghost use Rattle.pending.specs.Growth.{grown_values};
ghost use Rattle.runs.specs.Run.{values_room, values_now, pushed, lent_values, Ran, SameValues};

use crate::values_mut::ValuesMut;
use asking::ask::{Added, pair_with};
use kinds::event::{Event, Heard};
use kinds::lanes::Lent;
use kinds::usable;
use pending::growth::grown_values;
use pending::room::lane_room;
use pending::words::{Pending, Words};

// Why a run goes no further.
#[derive(Clone, Copy)]
pub enum Stop {
    // There is no whole record left.
    End,
    // The next event is refused: it is of another feature, or it is its own and plain, and there is no room for it or it is not its turn.
    Blocked { own: bool },
    // The next event is of the feature in hand, and not plain.
    Other(Event),
    // The next record is no event.
    Malformed,
}

// How far a run goes: up to a record, and what is pending there.
#[derive(Clone, Copy)]
pub struct Reached {
    pub taken: usize,
    pub pending: Pending,
    pub stop: Stop,
}

// Room for a coordinate: the ends are left as they are.
fn values_room(p: Pending, a: Added, pools: Lent) -> bool
    ensures { result ≡ values_room p a pools.xy pools.z pools.m pools.t pools.tm }
{
    lane_room(p.xy, a.xy, Words::PAIR, pools.xy, usable::XY_WORDS)
        && lane_room(p.z, a.z, Words::ONE, pools.z, usable::POOL_WORDS)
        && lane_room(p.m, a.m, Words::ONE, pools.m, usable::POOL_WORDS)
        && lane_room(p.t, a.t, Words::ONE, pools.t, usable::POOL_WORDS)
        && lane_room(p.tm, a.tm, Words::ONE, pools.tm, usable::POOL_WORDS)
}

// Lays a coordinate down behind the pending words: what is pending then.
fn push_values(p: Pending, added: Added, e: Event, values: &mut ValuesMut) -> Pending
    requires { let lent = lent_values (values_now values.old) in lent p added ≡ true }
    ensures pending { result ≡ grown_values p added }
    ensures same { SameValues values.old values.new }
    ensures values { values_now values.new ≡ pushed (values_now values.old) p added e }
{
    pools::push_pair(values.xy, p.xy, added.xy, e.x, e.y);
    pools::push_word(values.z, p.z, added.z, e.z);
    pools::push_word(values.m, p.m, added.m, e.m);
    pools::push_word(values.t, p.t, added.t, e.t);
    pools::push_word(values.tm, p.tm, added.tm, e.tm);
    grown_values(p, added)
}

// Takes the plain events of a feature's number from a record on, where the writer has that feature in hand and is ready for them.
pub fn take_plain(
    bytes: &[u8],
    from: usize,
    ready: bool,
    held: u32,
    p: Pending,
    values: &mut ValuesMut,
) -> Reached
    requires { from ≤ length bytes.now / 64 }
    ensures ran { Ran bytes.now ready held from p (values_now values.old) result (values_now values.new) }
    ensures same { SameValues values.old values.new }
{
    let lent = values.lent();
    let whole = bytes.len() / 64;
    let mut pending = p;
    for taken in from..whole {
        let begin = 64 * taken;
        let record = &bytes[begin..begin + 64];
        let own = event_log::feature_in(record) == held;
        let due = own & ready;
        match event_log::hear(record) {
            Heard::Pair { x, y } => {
                if !(due & lane_room(pending.xy, true, Words::PAIR, lent.xy, usable::XY_WORDS)) {
                    return Reached {
                        taken,
                        pending,
                        stop: Stop::Blocked { own },
                    };
                }
                pools::push_pair(values.xy, pending.xy, true, x, y);
                pending.xy.count += Words::PAIR;
                continue;
            }
            Heard::Coordinate(e) => {
                let added = pair_with(e.present);
                if !(due & values_room(pending, added, lent)) {
                    return Reached {
                        taken,
                        pending,
                        stop: Stop::Blocked { own },
                    };
                }
                pending = push_values(pending, added, e, values);
                continue;
            }
            Heard::Quiet => {
                if !due {
                    return Reached {
                        taken,
                        pending,
                        stop: Stop::Blocked { own },
                    };
                }
                continue;
            }
            Heard::Other(e) => {
                if !own {
                    return Reached {
                        taken,
                        pending,
                        stop: Stop::Blocked { own },
                    };
                }
                return Reached {
                    taken,
                    pending,
                    stop: Stop::Other(e),
                };
            }
            Heard::Malformed => {
                return Reached {
                    taken,
                    pending,
                    stop: Stop::Malformed,
                };
            }
        }
    }
    Reached {
        taken: whole,
        pending,
        stop: Stop::End,
    }
}
