// The record of a table, a geometry, as bytes: little-endian, spare bytes zero. Each function works on the bytes of one record.
#![tactic(auto)]

mod geometry;
mod place;

pub use geometry::{lone_list, put_geometry, read_geometry};
