// Well-known binary (OGC Simple Features 1.2.1, 8.2), two-dimensional: specs/ says what its bytes mean; here are its two byte orders.
#![tactic(auto)]

mod order;

pub use order::{Order, u32_at, u64_at};
