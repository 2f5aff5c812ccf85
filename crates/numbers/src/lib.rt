// Numbers in bytes: laid down at a place of a slice, and read from one.
#![tactic(auto)]

mod little_endian;

pub use little_endian::{put_u16, put_u32, put_u64, u16_at, u32_at, u64_at};
