// A finished feature, read back, judged and shown.
#![tactic(auto)]

mod boxes;
mod feature;
mod names;
mod values;
mod verdict;

pub use boxes::show_box;
pub use feature::{Feature, KEPT};
pub use names::show_bad_text;
pub use values::show_properties;
pub use verdict::show_geometry;
