// The library as the program asks it: a writer's state, the memory that is lent to it, and each call that is made.
#![tactic(auto)]

mod answers;
mod library;

pub use answers::{BadValue, Edges, Unread};
pub use library::Library;
