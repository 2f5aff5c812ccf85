// The typing after a geometry's begin, as the Rust's set_type rules it.
ghost use Rattle.std.specs.Prelude.{◌≡◌, ◌<◌};
ghost use Rattle.asking.specs.SetType.{promoted, detected, detected_or, unknown_type, collected, lifts, set_type};

use crate::typing::Typing;
use kinds::geometry_type;

// From a type to its multi type.
const TO_MULTI: u8 = 3;

fn promoted(typing: Typing, kind: u8) -> bool
    ensures { result ≡ promoted typing kind }
{
    typing.promote & ((kind == geometry_type::LINE_STRING) | (kind == geometry_type::POLYGON))
}

// The first type that is detected is declared from then on; what stands inside a collection does not count.
fn detected(typing: Typing, kind: u8) -> Typing
    ensures { result ≡ detected typing kind }
{
    if !(typing.mode == Typing::GEOMETRY_COLLECTION)
        | (kind == geometry_type::GEOMETRY_COLLECTION)
    {
        typing.with_declared(kind)
    } else {
        typing
    }
}

fn detected_or(typing: Typing, kind: u8) -> Typing
    ensures { result ≡ detected_or typing kind }
{
    if typing.detect {
        detected(typing, kind)
    } else {
        typing.with_current(kind)
    }
}

#[tactic(auto, unfolding(crate::specs::SetType::unknown_type))]
fn unknown_type(typing: Typing, kind: u8) -> Typing
    requires { kind < 32 }
    ensures { result ≡ unknown_type typing kind }
{
    if promoted(typing, kind) {
        detected_or(typing.with_mode(Typing::FORCE_MULTI), kind + TO_MULTI)
    } else {
        detected_or(typing, kind)
    }
}

// Inside a collection the current type is the part's.
#[tactic(auto, unfolding(crate::specs::SetType::collected))]
fn collected(typing: Typing, kind: u8) -> Typing
    ensures { result ≡ collected typing kind }
{
    if typing.mode == Typing::GEOMETRY_COLLECTION {
        typing.with_current(kind)
    } else {
        typing
    }
}

// Whether a single geometry goes into the multi type that is declared.
fn lifts(typing: Typing, kind: u8) -> bool
    requires { kind < 32 }
    ensures { result ≡ lifts typing kind }
{
    promoted(typing, kind)
        & (typing.declared == kind + TO_MULTI)
        & !(typing.mode == Typing::GEOMETRY_COLLECTION)
}

// None where the type does not go with the declared one.
#[tactic(auto, unfolding(crate::specs::SetType::set_type))]
pub fn set_type(typing: Typing, kind: u8) -> Option<Typing>
    requires { kind < 32 }
    ensures { result ≡ set_type typing kind }
{
    if kind == typing.declared {
        return Some(typing);
    }
    if typing.declared == geometry_type::UNKNOWN {
        return Some(collected(unknown_type(typing, kind), kind));
    }
    if (typing.declared == geometry_type::GEOMETRY_COLLECTION)
        & (typing.mode == Typing::GEOMETRY_COLLECTION)
    {
        return Some(typing.with_current(kind));
    }
    if lifts(typing, kind) {
        Some(typing.with_mode(Typing::FORCE_MULTI))
    } else {
        None
    }
}
