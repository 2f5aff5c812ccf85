use std::alloc::{AllocError, Global};

// A little more than is usable.
const TABLE_BYTES: usize = 262272;

// Room for the xy and two other lists of 65,536 pairs.
const WORDS: usize = 262208;

const ENDS: usize = 65540;

// A log for a line of 65,536 pairs.
const BYTES: usize = 4194560;

/// The memory that cases are run on.
#[derive(Drop)]
pub struct Memory {
    /// A table of records.
    pub table: Vec<u8>,
    /// The pools of words.
    pub words: Vec<u64>,
    pub ends: Vec<u32>,
    /// A log, or what else a call writes.
    pub bytes: Vec<u8>,
}

impl Memory {
    pub fn new(alloc: Global) -> Result<Memory, AllocError> {
        let table = vec![in alloc; 0u8; TABLE_BYTES]?;
        let words = vec![in alloc; 0u64; WORDS]?;
        let ends = vec![in alloc; 0u32; ENDS]?;
        let bytes = vec![in alloc; 0u8; BYTES]?;
        Ok(Memory {
            table,
            words,
            ends,
            bytes,
        })
    }
}

/// The first items, as many as there are.
pub fn so_many<T>(items: &[T], count: usize) -> &[T] {
    items.get(..count).unwrap_or(items)
}

/// The first items, as many as there are.
pub fn so_many_mut<T>(items: &mut [T], count: usize) -> &mut [T] {
    let count = count.min(items.len());
    &mut items[..count]
}
