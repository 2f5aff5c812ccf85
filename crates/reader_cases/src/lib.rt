//! The geometry reader on trees: a case of the list that oracle/lists/reader.py makes and lays out is a tree and readings of it, each of
//! which counts as a case of its own.
#![tactic(auto)]

mod lists;
mod readings;
mod row;
mod tree;

pub use readings::{Reading, read};
pub use tree::{Tree, lay_tree};
