//! The writer's calls, as the list that oracle/lists/writer.py makes lays them out: what a case gives and lends, what it calls and how
//! often, and what must come of it.
#![tactic(auto)]

mod call;
mod seven;
mod sort;

pub use call::{Answered, Call, Lent};
pub use seven::{Store, make};
pub use sort::Sort;
