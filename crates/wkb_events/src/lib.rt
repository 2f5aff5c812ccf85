// What a record of a list is to its judge, and what a pass counts of it.
#![tactic(auto)]

mod told;
mod walk;

pub use told::{Told, hear};
pub use walk::{WKB, Walk};
