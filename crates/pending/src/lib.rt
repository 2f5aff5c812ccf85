// The pending words of each pool: how they change, the records that are put down for them, and room for more.
#![tactic(auto)]

pub mod growth;
pub mod part;
pub mod room;
pub mod words;
