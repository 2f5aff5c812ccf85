// What a writer decides: its state, whether it is ready, and what each call answers. No memory is touched.
#![tactic(auto)]

pub mod decide;
pub mod feature;
pub mod ready;
pub mod root;
pub mod state;
