// Well-known binary, as events in a log.
#![tactic(auto)]

mod geometry;
mod group;
mod head;
mod input;
mod lines;
mod members;

pub use geometry::read_wkb;
