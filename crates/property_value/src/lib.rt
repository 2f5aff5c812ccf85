// What the writer and the reader of property bytes share: column types, the values of each, how many bytes are usable, and refusals.
#![tactic(auto)]

mod column;
mod refused;
mod room;
mod value;

pub use column::width;
pub use refused::PropertyRefusal;
pub use room::usable_length;
pub use value::{bad_text, is_malformed, word_of};
