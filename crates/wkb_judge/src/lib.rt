// Whether a list of events is a geometry's, at whatever depth.
#![tactic(auto)]

mod judge;
mod pairs;

pub use judge::{Nested, judge_all};
