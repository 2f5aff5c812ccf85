// What is written of a list of events: definitions, and the laws that tie them to a geometry.
#![tactic(auto)]

mod around;

pub use around::Around;
