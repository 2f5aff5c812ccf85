//! Well-known binary: a case of the list that oracle/lists/wkb.py makes and lays out is answered with what differs in it.
#![tactic(auto)]

mod reads;

pub use reads::read;
