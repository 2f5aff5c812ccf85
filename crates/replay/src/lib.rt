//! Fixed lists of cases, run from standard input: a program answers each case, and what differs is named and counted.
#![tactic(auto)]

mod canaries;
mod differences;
mod fields;
mod frames;
mod memory;
mod packed;
mod program;
mod tally;

pub use canaries::{Canary, clear, holds, is_clear, lay};
pub use differences::Differences;
pub use fields::Fields;
pub use memory::{Memory, so_many, so_many_mut};
pub use program::{Program, run};
pub use tally::{Sorted, Tally};
