// Many events in one call.
#![tactic(auto)]

mod all;
mod held;

ghost use Rattle.std.specs.Prelude.{◌≡◌};
ghost use Rattle.writing.specs.State.{memory};
ghost use Rattle.pools.specs.PoolsMut.{pools_now, SamePools};
ghost use Rattle.runs.specs.Events.{progress, took_of, events_call};

use all::take_all;
use held::held_by;
use pools::PoolsMut;
use runs::Took;
use writing::state::State;

// Takes events' records up to the first that is refused. The number that they must have is settled first and put in hand, so that a
// run has one number to compare with; where nothing is taken, the state stays as it was. Refused: 11, 15, 17, 5, 12.
pub fn events(s: State, bytes: &[u8], table: &mut [u8], pools: &mut PoolsMut) -> Took
    ensures same { SamePools pools.old pools.new }
    ensures took { let before = memory table.old (pools_now pools.old) in
        let after = memory table.new (pools_now pools.new) in
        progress (took_of result) after ≡ events_call s before bytes.now }
{
    let held = held_by(s.feature, bytes);
    let opened = State {
        feature: Some(held),
        ..s
    };
    let took = take_all(opened, held, bytes, table, pools);
    if took.taken == 0 {
        return Took { state: s, ..took };
    }
    took
}
