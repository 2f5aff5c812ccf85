// A list of events, as well-known binary.
#![tactic(auto)]

mod write;

pub use write::write_wkb;
