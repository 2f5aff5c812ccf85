// What an event asks for.
ghost use Rattle.std.specs.Prelude.{◌≡◌, true, false, ◌||◌, ◌<◌, Some};
ghost use Rattle.asking.specs.SetType.{with_mode};
ghost use Rattle.asking.specs.Ask.{no_words, end_if, pair_with, ask, calmed, in_collection, begun, pushes_end, collects, ask_of};

use crate::set_type::set_type;
use crate::typing::Typing;
use kinds::event::{Event, bit_set};
use kinds::flags::Flags;
use kinds::lanes::Lanes;

// The pools that an event adds words to: two to xy, one to each other.
pub type Added = Lanes<bool>;

pub const NO_WORDS: Added = Lanes {
    xy: false,
    ends: false,
    z: false,
    m: false,
    t: false,
    tm: false,
};

// What an event asks for: the typing after it, or None where its type does not go with the declared one; the words that it adds; and
// whether it then finishes a part.
#[derive(Clone, Copy, Debug, PartialEq, Eq)]
pub struct Ask {
    pub typed: Option<Typing>,
    pub added: Added,
    pub part: bool,
}

pub fn collects(typing: Typing) -> bool
    ensures { result ≡ collects typing }
{
    typing.mode == Typing::GEOMETRY_COLLECTION
}

fn pushes_end(typing: Typing, tagged: bool) -> bool
    ensures { result ≡ pushes_end typing tagged }
{
    !tagged | (typing.mode == Typing::FORCE_MULTI)
}

// A tagged end leaves ForceMulti.
fn calmed(typing: Typing, tagged: bool) -> Typing
    ensures { result ≡ calmed typing tagged }
{
    if tagged & (typing.mode == Typing::FORCE_MULTI) {
        typing.with_mode(Typing::NORMAL)
    } else {
        typing
    }
}

fn in_collection(typed: Option<Typing>) -> Option<Typing>
    ensures { result ≡ in_collection typed }
{
    typed.map(|typing| typing.with_mode(Typing::GEOMETRY_COLLECTION))
}

// The begins of lines, polygons and triangles set the type only where they are tagged.
#[tactic(auto, unfolding(crate::specs::Ask::begun))]
fn begun(typing: Typing, e: Event) -> Option<Typing>
    requires { e.kind < 32 }
    ensures { result ≡ begun typing e }
{
    let kind = e.kind;
    if e.is_quiet() {
        return Some(typing);
    }
    if kind == Event::GEOMETRY_COLLECTION_BEGIN {
        in_collection(set_type(typing, kind))
    } else {
        set_type(typing, kind)
    }
}

fn begin(typing: Typing, e: Event) -> Ask
    requires { e.kind < 32 }
    ensures { result ≡ ask (begun typing e) no_words false }
{
    let typed = begun(typing, e);
    Ask {
        typed,
        added: NO_WORDS,
        part: false,
    }
}

// A pair, and the values that are present: none of kind 64.
pub fn pair_with(present: u8) -> Added
    ensures { result ≡ pair_with present }
{
    Lanes {
        xy: true,
        ends: false,
        z: bit_set(present, Flags::Z),
        m: bit_set(present, Flags::M),
        t: bit_set(present, Flags::T),
        tm: bit_set(present, Flags::TM),
    }
}

fn point_end(typing: Typing) -> Ask
    ensures { result ≡ ask (Some typing) no_words (collects typing) }
{
    let typed = Some(typing);
    Ask {
        typed,
        added: NO_WORDS,
        part: collects(typing),
    }
}

fn linestring_end(typing: Typing, tagged: bool) -> Ask
    ensures { result ≡ ask (Some (calmed typing tagged)) (end_if (pushes_end typing tagged)) (collects typing) }
{
    let typed = Some(calmed(typing, tagged));
    let added = Lanes {
        ends: pushes_end(typing, tagged),
        ..NO_WORDS
    };
    let part = collects(typing);
    Ask { typed, added, part }
}

fn polygon_end(typing: Typing, tagged: bool) -> Ask
    ensures { result ≡ ask (Some (calmed typing tagged)) no_words (pushes_end typing tagged || collects typing) }
{
    let typed = Some(calmed(typing, tagged));
    Ask {
        typed,
        added: NO_WORDS,
        part: pushes_end(typing, tagged) | collects(typing),
    }
}

fn geometrycollection_end(typing: Typing) -> Ask
    ensures { result ≡ ask (Some (with_mode typing 0)) no_words false }
{
    let typed = Some(typing.with_mode(Typing::NORMAL));
    Ask {
        typed,
        added: NO_WORDS,
        part: false,
    }
}

// The ends that FeatureWriter does not override.
fn nothing(typing: Typing) -> Ask
    ensures { result ≡ ask (Some typing) no_words false }
{
    let typed = Some(typing);
    Ask {
        typed,
        added: NO_WORDS,
        part: false,
    }
}

// What a begin or an end asks for.
#[tactic(auto, unfolding(crate::specs::Ask::ask_of))]
pub fn ask_of(typing: Typing, e: Event) -> Ask
    requires { e.kind < 64 }
    ensures { result ≡ ask_of typing e }
{
    let kind = e.kind;
    if kind < Event::END {
        return begin(typing, e);
    }
    match kind {
        Event::POINT_END => point_end(typing),
        Event::LINE_STRING_END => linestring_end(typing, e.tagged),
        Event::POLYGON_END => polygon_end(typing, e.tagged),
        Event::GEOMETRY_COLLECTION_END => geometrycollection_end(typing),
        _ => nothing(typing),
    }
}
