// What the programs of this house say to people: numbers, types, refusals and events in plain words.
#![tactic(auto)]

mod event;
mod map;
mod number;
mod refused;
mod text;
mod words;

pub use event::Record;
pub use map::write_map;
pub use number::{Double, Float};
pub use refused::Refused;
pub use text::{Hex, write_text};
pub use words::column_type_name;
