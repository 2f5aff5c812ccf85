// What an event asks for: the typing after it, the words that it adds, and whether it finishes a part.
#![tactic(auto)]

pub mod ask;
pub mod set_type;
pub mod typing;
