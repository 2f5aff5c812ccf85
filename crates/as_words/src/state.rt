// A writer's state as words, so that a caller in another language can keep it.
ghost use Rattle.std.specs.Prelude.{◌≡◌, ◌+◌, ◌<◌};
ghost use Rattle.kinds.specs.Refusal.{answer_of};
ghost use Rattle.writing.specs.State.{wrote, wrote_of};
ghost use Rattle.runs.specs.Events.{took_of};
ghost use Rattle.as_words.specs.Words.{typing_of, list_at, feature_by, pending_of, state_of, is_numbered, number_of, mark, head_of, words_of, words_after, words_after_all};

use asking::typing::Typing;
use kinds::event::bit_set;
use kinds::lanes::Lanes;
use kinds::refusal::{Refusal, answer_number};
use pending::words::{Pending, Words};
use runs::Took;
use writing::state::State;

// How many words a state has. The header and the Rust wrapper have this number once each, too.
pub const STATE_WORDS: usize = 16;

// These words are the C interface's: a caller may put any in them.
pub type StateWords = [u32; STATE_WORDS];

// Where a state counts the parts of the feature in hand, and the property bytes.
const PARTS: usize = 1;

pub const PROPERTIES: usize = 2;

// Where it has the number of the feature in hand, if there is one.
const FEATURE: usize = 3;

// Which byte of the first word is what.
const DECLARED: usize = 0;

const CURRENT: usize = 1;

const MODE: usize = 2;

const MARKS: usize = 3;

// The marks are bits of that byte, as C has them.
pub const DETECT: u8 = 1;

pub const PROMOTE: u8 = 2;

const WAITING: u8 = 4;

const NUMBERED: u8 = 8;

// It is inlined, as state_of(), head_of(), words_of(), keep_numbered() and keep() are: else LLVM lays the five bytes of a typing on the stack
// in bintolage_property(), and reads them back.
#[tactic(auto, unfolding(crate::specs::Words::typing_of))]
#[inline(always)]
fn typing_of(head: u32) -> Typing
    ensures { result ≡ typing_of head }
{
    let bytes = head.to_le_bytes();
    let marks = bytes[MARKS];
    Typing {
        declared: bytes[DECLARED],
        detect: bit_set(marks, DETECT),
        promote: bit_set(marks, PROMOTE),
        current: bytes[CURRENT],
        mode: bytes[MODE],
    }
}

// The type that is declared, or the first that was detected.
#[tactic(auto, unfolding(crate::specs::Words::typing_of, crate::specs::Words::state_of))]
pub fn declared_of(words: &StateWords) -> u8
    ensures { result ≡ (state_of words.now).typing.declared }
{
    words[0].to_le_bytes()[DECLARED]
}

fn feature_by(numbered: bool, number: u32) -> Option<u32>
    ensures { result ≡ feature_by numbered number }
{
    if numbered { Some(number) } else { None }
}

fn list_at(words: &StateWords, at: usize) -> Words
    requires { at + 1 < 16 }
    ensures { result ≡ list_at words.now at }
{
    Words {
        start: words[at],
        count: words[at + 1],
    }
}

#[tactic(auto, unfolding(crate::specs::Words::pending_of))]
fn pending_of(words: &StateWords) -> Pending
    ensures { result ≡ pending_of words.now }
{
    Lanes {
        xy: list_at(words, 4),
        ends: list_at(words, 6),
        z: list_at(words, 8),
        m: list_at(words, 10),
        t: list_at(words, 12),
        tm: list_at(words, 14),
    }
}

#[tactic(auto, unfolding(crate::specs::Words::state_of))]
#[inline(always)]
pub fn state_of(words: &StateWords) -> State
    ensures { result ≡ state_of words.now }
{
    let marks = words[0].to_le_bytes()[MARKS];
    State {
        typing: typing_of(words[0]),
        waiting: bit_set(marks, WAITING),
        parts: words[PARTS],
        properties: words[PROPERTIES],
        feature: feature_by(bit_set(marks, NUMBERED), words[FEATURE]),
        pending: pending_of(words),
    }
}

// The number of the feature in hand, 0 where there is none.
#[tactic(auto, unfolding(crate::specs::Words::state_of))]
pub fn feature_of(words: &StateWords) -> u32
    ensures { result ≡ number_of (state_of words.now).feature }
{
    let marks = words[0].to_le_bytes()[MARKS];
    feature_by(bit_set(marks, NUMBERED), words[FEATURE]).unwrap_or(0)
}

fn mark(on: bool, bit: u8) -> u8
    ensures { result ≡ mark on bit }
{
    if on { bit } else { 0 }
}

#[tactic(auto, unfolding(crate::specs::Words::head_of))]
#[inline(always)]
fn head_of(typing: Typing, waiting: bool, numbered: bool) -> u32
    ensures { result ≡ head_of typing waiting numbered }
{
    let marks = mark(typing.detect, DETECT)
        + mark(typing.promote, PROMOTE)
        + mark(waiting, WAITING)
        + mark(numbered, NUMBERED);
    u32::from_le_bytes([typing.declared, typing.current, typing.mode, marks])
}

// Word by word as the header has them, so that each stands beside its place.
#[tactic(auto, unfolding(crate::specs::Words::words_of, crate::specs::Words::words_of_pending))]
#[inline(always)]
pub fn words_of(s: State) -> StateWords
    ensures { result ≡ words_of s }
{
    [
        head_of(s.typing, s.waiting, s.feature.is_some()),
        s.parts,
        s.properties,
        s.feature.unwrap_or(0),
        s.pending.xy.start,
        s.pending.xy.count,
        s.pending.ends.start,
        s.pending.ends.count,
        s.pending.z.start,
        s.pending.z.count,
        s.pending.m.start,
        s.pending.m.count,
        s.pending.t.start,
        s.pending.t.count,
        s.pending.tm.start,
        s.pending.tm.count,
    ]
}

// Keeps the state that comes with a number, where the number is that of done, and gives the number. With any other the words stay as
// they were.
#[tactic(auto, unfolding(crate::specs::Words::words_after))]
#[inline(always)]
pub fn keep_numbered(words: &mut StateWords, number: u8, state: State) -> u8
    ensures value { result ≡ number }
    ensures words_after { words.new ≡ words_after words.old (wrote number state) }
{
    if number == 0 {
        *words = words_of(state);
    }
    number
}

// Keeps the state that a call handed back, and gives its number. A refusal leaves the words as they were.
#[tactic(auto, unfolding(crate::specs::Words::words_after))]
#[inline(always)]
pub fn keep(words: &mut StateWords, wrote: Result<State, Refusal>) -> u8
    ensures value { result ≡ answer_of wrote }
    ensures words_after { (s : State) → words.new ≡ words_after words.old (wrote_of s wrote) }
{
    match wrote {
        Ok(after) => keep_numbered(words, 0, after),
        Err(refusal) => refusal.number(),
    }
}

// Keeps the state after the events that were taken, tells how many they were, and gives the number. Where none was, the words stay
// as they were.
#[tactic(auto, unfolding(crate::specs::Words::words_after_all))]
pub fn keep_all(words: &mut StateWords, count: &mut usize, took: Took) -> u8
    ensures value { result ≡ answer_of took.answer }
    ensures count_after { count.new ≡ took.taken }
    ensures words_after { words.new ≡ words_after_all words.old (took_of took) }
{
    *count = took.taken;
    if took.taken != 0 {
        *words = words_of(took.state);
    }
    answer_number(&took.answer)
}
