// What a call answers, and the state after it, from the state and what is lent: no memory is touched. A refused call leaves the state as
// it stood, which is its caller's own copy.
ghost use Rattle.std.specs.Prelude.{◌≡◌, true, cond, ◌+◌, ◌≤◌};
ghost use Rattle.kinds.specs.Refusal.{answer_of};
ghost use Rattle.writing.specs.State.{wrote_of};
ghost use Rattle.asking.specs.Ask.{no_words, OnlyEnds};
ghost use Rattle.writing.specs.Feature.{belongs};
ghost use Rattle.writing.specs.Calls.{state_after, finished, decide_finish, renewed, decide_next};
ghost use Rattle.pending.specs.Room.{Fits, has_room};
ghost use Rattle.writing.specs.Other.{decide_other};

use crate::feature::belongs;
use crate::ready::other_room;
use crate::state::State;
use asking::ask::{Ask, NO_WORDS};
use asking::typing::Typing;
use kinds::lanes::Lent;
use kinds::refusal::Refusal;
use pending::growth::{fronted_all, grown_all, past_all};
use pending::room::has_room;

#[tactic(auto, unfolding(crate::specs::Calls::state_after))]
fn state_after(s: State, n: u32, a: Ask, typing: Typing) -> State
    requires fits { Fits s.pending a.added }
    requires records { a.part ≡ true → s.parts + 2 ≤ 4096 }
    ensures { result ≡ state_after s n a typing }
{
    let pending = grown_all(s.pending, a.added);
    let after = State {
        typing,
        feature: Some(n),
        pending,
        ..s
    };
    if a.part {
        State {
            parts: s.parts + 1,
            pending: past_all(pending),
            ..after
        }
    } else {
        after
    }
}

// Whether it is an event's turn, and the event is of the feature in hand.
fn due(s: State, n: u32) -> Result<(), Refusal>
    ensures { answer_of result ≡ cond s.waiting 15 (cond (belongs s.feature n) 0 17) }
{
    if s.waiting {
        return Err(Refusal::NotItsTurn);
    }
    if belongs(s.feature, n) {
        Ok(())
    } else {
        Err(Refusal::OtherFeature)
    }
}

// A begin or an end of a feature's number, where it is known whether the writer is ready. It asks for room for a part's record and
// for an end.
#[tactic(auto, unfolding(crate::specs::Other::decide_other, crate::specs::Calls::if_due))]
pub fn decide_other(
    s: State,
    n: u32,
    a: Ask,
    ready: bool,
    records: usize,
    ends: usize,
) -> Result<State, Refusal>
    requires fits { ready ≡ true → Fits s.pending no_words }
    requires ends { OnlyEnds a }
    ensures { wrote_of s result ≡ decide_other s n a ready records ends }
{
    due(s, n)?;
    let typing = a.typed.ok_or(Refusal::TypesMixed)?;
    if ready & other_room(s, a, records, ends) {
        Ok(state_after(s, n, a, typing))
    } else {
        Err(Refusal::NoRoom)
    }
}

// Whether it is the call's turn, and there is room for the records of all parts and of the root.
fn root_fits(s: State, turn: bool, records: usize, pools: Lent) -> Result<(), Refusal>
    ensures { let room = has_room s.pending no_words (s.parts + 1) records pools in
        answer_of result ≡ cond turn (cond room 0 12) 15 }
{
    if !turn {
        return Err(Refusal::NotItsTurn);
    }
    let needed = (s.parts as usize) + 1;
    if has_room(s.pending, NO_WORDS, needed, records, pools) {
        Ok(())
    } else {
        Err(Refusal::NoRoom)
    }
}

// The typing stays: the next feature begins with it. What is pending beside parts stays pending, for the next feature.
#[tactic(auto, unfolding(crate::specs::Calls::finished))]
fn finished(s: State) -> State
    requires { Fits s.pending no_words }
    ensures { result ≡ finished s }
{
    let pending = if s.parts == 0 {
        past_all(s.pending)
    } else {
        s.pending
    };
    State {
        waiting: true,
        pending,
        ..s
    }
}

#[tactic(auto, unfolding(crate::specs::Calls::decide_finish))]
pub fn decide_finish(s: State, records: usize, pools: Lent) -> Result<State, Refusal>
    ensures { wrote_of s result ≡ decide_finish s records pools }
{
    root_fits(s, !s.waiting, records, pools)?;
    Ok(finished(s))
}

#[tactic(auto, unfolding(crate::specs::Calls::renewed))]
fn renewed(s: State) -> State
    ensures { result ≡ renewed s }
{
    State {
        waiting: false,
        parts: 0,
        properties: 0,
        feature: None,
        pending: fronted_all(s.pending),
        ..s
    }
}

#[tactic(auto, unfolding(crate::specs::Calls::decide_next))]
pub fn decide_next(s: State, records: usize, pools: Lent) -> Result<State, Refusal>
    ensures { wrote_of s result ≡ decide_next s records pools }
{
    root_fits(s, s.waiting, records, pools)?;
    Ok(renewed(s))
}
