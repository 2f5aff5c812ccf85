// Events that are to be of one feature, which is in hand: runs of plain events, and between them the others one by one.
ghost use Rattle.std.specs.Prelude.{◌≡◌, Some};
ghost use Rattle.writing.specs.State.{memory};
ghost use Rattle.pools.specs.PoolsMut.{pools_now, SamePools};
ghost use Rattle.runs.specs.Events.{progress, took_of, events_call};

use event_log::no_rest;
use frames::take_other;
use kinds::refusal::Refusal;
use pools::PoolsMut;
use runs::{Stop, Took, ValuesMut, take_plain, why_blocked};
use writing::ready::is_ready;
use writing::state::State;

pub fn take_all(s: State, held: u32, bytes: &[u8], table: &mut [u8], pools: &mut PoolsMut) -> Took
    requires { s.feature ≡ Some held }
    ensures same { SamePools pools.old pools.new }
    ensures took { let before = memory table.old (pools_now pools.old) in
        let after = memory table.new (pools_now pools.new) in
        progress (took_of result) after ≡ events_call s before bytes.now }
{
    let ready = is_ready(s, store::records_lent(table), pools.lent());
    let mut state = s;
    let mut taken = 0;
    loop {
        let mut values = ValuesMut {
            xy: pools.xy,
            z: pools.z,
            m: pools.m,
            t: pools.t,
            tm: pools.tm,
        };
        let run = take_plain(bytes, taken, ready, held, state.pending, &mut values);
        state.pending = run.pending;
        taken = run.taken;
        let answer = match run.stop {
            Stop::End => no_rest(bytes.len()),
            Stop::Blocked { own } => Err(why_blocked(state.waiting, own)),
            Stop::Malformed => Err(Refusal::Malformed),
            Stop::Other(e) => match take_other(state, held, ready, e, table, pools.ends) {
                Ok(after) => {
                    state = after;
                    taken += 1;
                    continue;
                }
                Err(refusal) => Err(refusal),
            },
        };
        return Took {
            taken,
            state,
            answer,
        };
    }
}
