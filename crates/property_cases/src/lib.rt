//! Property bytes, both ways: a case of the list that oracle/lists/property.py makes and lays out is answered with what differs in it.
#![tactic(auto)]

mod answers;
mod reads;
mod writes;

pub use reads::read;
pub use writes::written;
