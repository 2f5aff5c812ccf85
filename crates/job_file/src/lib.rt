// A job as it stands in the input: its head, its columns and its items, and what is said of an input that is no job.
#![tactic(auto)]

mod columns;
mod fault;
mod head;
mod item;
mod source;

pub use columns::Columns;
pub use fault::{Fault, JobError, Wrong};
pub use head::Head;
pub use item::{Item, Property, TEXT_BYTES};
pub use source::Source;
