// Which events may follow which: frames of type, size and next index, and a machine that takes one event at a time.
#![tactic(auto)]

mod frame;
mod geometry_type;
mod rules;

pub use frame::Frame;
pub use geometry_type::{GeometryType, Kind, opens};
pub use rules::Rules;
