// What the library's caller keeps as words of a fixed number: a writer's state.
#![tactic(auto)]

pub mod state;
