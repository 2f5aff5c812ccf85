//! The store: a case of the list that oracle/lists/store.py makes and lays out is answered with what differs in it.
#![tactic(auto)]

mod boxes;
mod events;
mod records;

pub use boxes::boxed;
pub use events::{heard, said};
pub use records::judged;
