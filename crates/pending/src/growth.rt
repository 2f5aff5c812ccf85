// The pending words of each pool: as they grow, as a part takes them, as they go to the front.
ghost use Rattle.std.specs.Prelude.{◌≡◌, cond, ◌/◌, ◌≤◌};
ghost use Rattle.kinds.specs.Lanes.{Lane, lane};
ghost use Rattle.pending.specs.Words.{words_in, pending_of};
ghost use Rattle.asking.specs.Ask.{no_words};
ghost use Rattle.pending.specs.Growth.{more, grown_all, grown_values, past_all, fronted};
ghost use Rattle.pending.specs.Room.{Fits, ValuesFit};

use crate::words::{Pending, Words};
use asking::ask::Added;
use kinds::lanes::Lanes;

pub fn count_if(on: bool, n: u32) -> u32
    ensures is { result ≡ cond on n 0 }
    ensures small { result ≤ n }
{
    if on { n } else { 0 }
}

// How many words are added to each pool.
pub fn counts(a: Added) -> Lanes<u32>
    ensures { (n : Lane) → lane result n ≡ more a n }
{
    a.zip_with(Words::AT_ONCE, count_if)
}

// An end counts the pairs of the pending list.
pub fn end_of(xy: Words) -> u32
    ensures { result ≡ xy.count / 2 }
{
    xy.count / 2
}

#[tactic(auto, unfolding(crate::specs::Growth::grown_all))]
pub fn grown_all(p: Pending, a: Added) -> Pending
    requires { Fits p a }
    ensures { result ≡ grown_all p a }
{
    p.zip_with(counts(a), |words, n| words.grown(n))
}

// A coordinate leaves the ends as they are.
pub fn grown_values(p: Pending, a: Added) -> Pending
    requires { ValuesFit p a }
    ensures { result ≡ grown_values p a }
{
    let values = Lanes { ends: false, ..a };
    p.zip_with(counts(values), |words, n| words.grown(n))
}

// A single end is left out, and its room is used again.
#[tactic(auto, unfolding(crate::specs::Growth::past_all))]
pub fn past_all(p: Pending) -> Pending
    requires { Fits p no_words }
    ensures { result ≡ past_all p }
{
    p.zip_with(Words::OMITTED_IN, |words, omitted| words.past(omitted))
}

pub fn fronted_all(p: Pending) -> Pending
    ensures { result ≡ pending_of (λ n. fronted (words_in p n)) }
{
    p.map(|words| words.fronted())
}
