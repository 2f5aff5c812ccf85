// The geometry writer: events to tree, over the store.
#![tactic(auto)]

mod properties;

ghost use Rattle.std.specs.Prelude.{◌≡◌, List, ℕ};
ghost use Rattle.event_log.specs.Log.{feature_in};
ghost use Rattle.event_log.specs.LogLaws.{HeardPair};
ghost use Rattle.store.specs.Lists.{pools_in};
ghost use Rattle.pools.specs.PoolsMut.{pools_now, SamePools};
ghost use Rattle.writing.specs.State.{memory, mem_of, wrote_of, outcome};
ghost use Rattle.writing.specs.Calls.{started, event_call, finish_call, next_call};

use asking::typing::Typing;
use kinds::lanes::Lanes;
use kinds::refusal::Refusal;
use many::events;
use pending::words::Words;
use pools::PoolsMut;
pub use properties::property;
use runs::take_alone;
use store::Pools;
use writing::decide::{decide_finish, decide_next};
use writing::ready::is_ready;
use writing::state::State;

#[tactic(auto, unfolding(writing::specs::Calls::started))]
pub fn start(declared: u8, detect: bool, promote: bool) -> State
    ensures { result ≡ started declared detect promote }
{
    let none = Words { start: 0, count: 0 };
    State {
        typing: Typing {
            declared,
            detect,
            promote,
            current: 0,
            mode: Typing::NORMAL,
        },
        waiting: false,
        parts: 0,
        properties: 0,
        feature: None,
        pending: Lanes {
            xy: none,
            ends: none,
            z: none,
            m: none,
            t: none,
            tm: none,
        },
    }
}

// Takes a pair given by itself, for a feature's number: what `event` does with a record that is heard so. Only the xy pool is written.
// Refused: 15, 17, 12.
pub fn pair(
    s: State,
    n: u32,
    x: u64,
    y: u64,
    table: &[u8],
    xy: &mut [u64],
    ends: &[u32],
    z: &[u64],
    m: &[u64],
    t: &[u64],
    tm: &[u64],
) -> Result<State, Refusal>
    ensures { let before = mem_of table.now xy.old ends.now z.now m.now t.now tm.now in
        let after = mem_of table.now xy.new ends.now z.now m.now t.now tm.now in
        ((bytes : List ℕ) → n ≡ feature_in bytes → HeardPair bytes x y → outcome (wrote_of s result) after ≡ event_call s before bytes) }
{
    let lent = Lanes {
        xy: xy.len(),
        ends: ends.len(),
        z: z.len(),
        m: m.len(),
        t: t.len(),
        tm: tm.len(),
    };
    let ready = is_ready(s, store::records_lent(table), lent);
    take_alone(s, n, ready, x, y, xy)
}

// Takes an event's record. Refused: 11, 15, 17, 5, 12.
pub fn event(
    s: State,
    bytes: &[u8],
    table: &mut [u8],
    pools: &mut PoolsMut,
) -> Result<State, Refusal>
    ensures same { SamePools pools.old pools.new }
    ensures took { let before = memory table.old (pools_now pools.old) in
        let after = memory table.new (pools_now pools.new) in
        outcome (wrote_of s result) after ≡ event_call s before bytes.now }
{
    if bytes.len() != 64 {
        return Err(Refusal::Malformed);
    }
    let took = events(s, bytes, table, pools);
    took.answer?;
    Ok(took.state)
}

// Lays the feature's root down, and has it wait. Refused: 15, 12.
pub fn finish(s: State, table: &mut [u8], pools: &Pools) -> Result<State, Refusal>
    ensures { let before = memory table.old (pools_in pools.now) in
        let after = memory table.new (pools_in pools.now) in
        outcome (wrote_of s result) after ≡ finish_call s before }
{
    let finished = decide_finish(s, store::records_lent(table), pools.lent())?;
    pools::put_root(table, s);
    Ok(finished)
}

// Leaves a finished feature behind, and carries what is still pending into the next. Refused: 15, 12.
pub fn next(s: State, table: &[u8], pools: &mut PoolsMut) -> Result<State, Refusal>
    ensures same { SamePools pools.old pools.new }
    ensures took { let before = memory table.now (pools_now pools.old) in
        let after = memory table.now (pools_now pools.new) in
        outcome (wrote_of s result) after ≡ next_call s before }
{
    let renewed = decide_next(s, store::records_lent(table), pools.lent())?;
    pools::move_words(pools.xy, s.pending.xy);
    pools::move_words(pools.ends, s.pending.ends);
    pools::move_words(pools.z, s.pending.z);
    pools::move_words(pools.m, s.pending.m);
    pools::move_words(pools.t, s.pending.t);
    pools::move_words(pools.tm, s.pending.tm);
    Ok(renewed)
}
