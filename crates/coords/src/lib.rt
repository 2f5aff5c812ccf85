// A record's pairs, with what stands beside them, and the walk over a stretch of them.
#![tactic(auto)]

mod answer;
mod coords;
mod head;
mod lists;
mod pairs;
mod window;

pub use answer::Answer;
pub use coords::read_window;
pub use head::Head;
pub use lists::{Lists, Window};
pub use window::between;
