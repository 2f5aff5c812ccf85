// Bytes heard as events.
ghost use Rattle.std.specs.Prelude.{◌≡◌, true, length};
ghost use Rattle.kinds.specs.declared.event.Event.{Event};
ghost use Rattle.kinds.specs.Event.{WellFormed, told_apart, BareOf, is_event, OwnPair};
ghost use Rattle.kinds.specs.Refusal.{answer_of};
ghost use Rattle.event_log.specs.Log.{heard, feature_in, rest_number};

use crate::EVENT_BYTES;
use kinds::event::{Event, Heard, Xy};
use kinds::refusal::Refusal;

// What bytes are: a pair, a coordinate, a begin that sets no type, any other event, or malformed.
pub fn hear(bytes: &[u8]) -> Heard
    ensures { result ≡ told_apart (heard bytes.now) }
{
    event_layout::read_event(bytes)
}

// The pair that bytes are if they are an xy event: a quick look, for a caller that gives a pair by itself.
pub fn hear_bare(bytes: &[u8]) -> Option<Xy>
    ensures { BareOf (heard bytes.now) result }
{
    event_layout::read_bare(bytes)
}

// Whether bytes are an event at all.
pub fn is_event(bytes: &[u8]) -> bool
    ensures { result ≡ is_event (heard bytes.now) }
{
    event_layout::is_event(bytes)
}

// Whether bytes are the xy event of a feature that has this index: a quick look, for a caller that knows which pair is due.
pub fn is_pair(bytes: &[u8], feature: u32, idx: u32) -> bool
    requires { length bytes.now ≡ 64 }
    ensures { result ≡ true → OwnPair (heard bytes.now) (feature_in bytes.now) feature idx }
{
    event_layout::is_pair(bytes, feature, idx)
}

// The whole event of bytes that are heard as one: `hear` leaves out an index, and all that a begin says.
pub fn event_in(bytes: &[u8]) -> Event
    requires { length bytes.now ≡ 64 }
    ensures { (e : Event) → heard bytes.now ≡ WellFormed e → result ≡ e }
{
    event_layout::event_of(bytes)
}

// The number of the feature that an event's bytes are of.
pub fn feature_in(bytes: &[u8]) -> u32
    requires { length bytes.now ≡ 64 }
    ensures { result ≡ feature_in bytes.now }
{
    event_layout::feature_of(bytes)
}

// What is left over behind the whole records of a list is malformed.
pub fn no_rest(length: usize) -> Result<(), Refusal>
    ensures { answer_of result ≡ rest_number length }
{
    if length % EVENT_BYTES == 0 {
        Ok(())
    } else {
        Err(Refusal::Malformed)
    }
}
