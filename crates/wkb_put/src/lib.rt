// Events that were judged good, laid down as well-known binary.
#![tactic(auto)]

mod output;
mod put;

pub use put::put_all;
