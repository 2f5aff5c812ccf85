//! A row of the writer's calls, case by case: the call, the memory that it is lent, and what differs.
#![tactic(auto)]

mod memory;
mod row;

pub use row::Row;
