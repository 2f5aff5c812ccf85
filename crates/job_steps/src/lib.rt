// The feature in hand: its events and properties are given to the library, and what was given is kept to be compared.
#![tactic(auto)]

mod event;
mod in_hand;
mod property;

pub use event::take_event;
pub use in_hand::InHand;
pub use property::take_property;
