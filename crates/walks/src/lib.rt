// What is decided of a record before it is read.
#![tactic(auto)]

mod lone;
mod walk;

pub use lone::lone_part;
pub use walk::{Role, Walk, walk_in, walk_of};
