// Plain events, one behind the other or one by itself: pairs, coordinates, and begins that set no type.
#![tactic(auto)]

mod alone;
mod blocked;
mod run;
mod took;
mod values_mut;

pub use alone::take_alone;
pub use blocked::why_blocked;
pub use run::{Reached, Stop, take_plain};
pub use took::Took;
pub use values_mut::ValuesMut;
