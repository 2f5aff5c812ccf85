// A property of the feature in hand: its bytes stand beside the geometry, and the state counts them.
ghost use Rattle.std.specs.Prelude.{◌≡◌};
ghost use Rattle.property_value.specs.Refused.{answer_place, Told};
ghost use Rattle.property_writer.specs.Writing.{bytes_after};
ghost use Rattle.writer.specs.Property.{wrote_as, property_call, property_place};

use property_value::PropertyRefusal;
use property_writer::{Property, put_property};
use writing::state::State;

// Lays a value down after the feature's other property bytes. Refused: 15, 16, 11, 6, 12.
// It is inlined for the same reason as what `as_words` makes a state with. A copy of the whole state is changed, and none is built anew: that takes
// Rattle's own compiler fewer instructions.
#[tactic(auto, unfolding(crate::specs::Property::property_call, crate::specs::Property::property_place))]
#[inline(always)]
pub fn property(s: State, property: Property, buffer: &mut [u8]) -> Result<State, PropertyRefusal>
    ensures answer { let p = property.entry in
        wrote_as s result ≡ property_call s p.column p.kind p.bits p.text.now buffer.old }
    ensures place { let p = property.entry in
        answer_place result ≡ property_place s p.column p.kind p.bits p.text.now buffer.old }
    ensures bytes { let p = property.entry in
        buffer.new ≡ bytes_after s.waiting s.properties p.column p.kind p.bits p.text.now buffer.old }
    ensures told { Told result }
{
    let mut after = s;
    after.properties = put_property(s.waiting, s.properties, property, buffer)?;
    Ok(after)
}
