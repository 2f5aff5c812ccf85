// The numbers of SPEC 2.1 to 2.6, 4.2 and 5.1, and the values that cross the layers of the house.
#![tactic(auto)]

pub mod column_type;
pub mod event;
pub mod flags;
pub mod geometry;
pub mod geometry_type;
pub mod lanes;
pub mod refusal;
pub mod usable;
pub mod value;
