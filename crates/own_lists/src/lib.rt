// A record's own lists, lent from the pools to the walk that reads them.
#![tactic(auto)]

mod own;

pub use own::{Own, read_own};
