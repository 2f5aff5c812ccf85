//! The memory that a row's calls are lent: canaries at its start, and a checksum after each call.
use replay::so_many_mut;
use std::alloc::{AllocError, Global};
use writer_calls::{Call, Lent, Sort, Store};

// Each is a little longer than is usable.
const TABLE_BYTES: usize = 262272;

const XY: usize = 131076;

const WORDS: usize = 65538;

const BUFFER_BYTES: usize = 1024;

#[derive(Drop)]
struct Pools {
    xy: Vec<u64>,
    ends: Vec<u32>,
    z: Vec<u64>,
    m: Vec<u64>,
    t: Vec<u64>,
    tm: Vec<u64>,
}

#[derive(Drop)]
pub struct Memory {
    table: Vec<u8>,
    /// What properties are put into.
    buffer: Vec<u8>,
    pools: Pools,
}

// One step of a checksum. Each step can be undone, so two memories that differ in one word never have the same one.
fn mixed(sum: u64, word: u64) -> u64 {
    let a = sum ^ word;
    let b = a ^ (a << 13);
    let c = b ^ (b >> 7);
    c ^ (c << 17)
}

fn with<T: Copy + Into<u64>>(sum: u64, items: &[T]) -> u64 {
    items
        .iter()
        .fold(sum, |sum, item| mixed(sum, (*item).into()))
}

impl Pools {
    fn new(alloc: Global) -> Result<Pools, AllocError> {
        let xy = vec![in alloc; 0u64; XY]?;
        let ends = vec![in alloc; 0u32; WORDS]?;
        let z = vec![in alloc; 0u64; WORDS]?;
        let m = vec![in alloc; 0u64; WORDS]?;
        let t = vec![in alloc; 0u64; WORDS]?;
        let tm = vec![in alloc; 0u64; WORDS]?;
        Ok(Pools {
            xy,
            ends,
            z,
            m,
            t,
            tm,
        })
    }

    // As much of the pools as is lent, beside these bytes.
    fn lend<'a>(&'a mut self, bytes: &'a mut [u8], lent: Lent) -> Store<'a> {
        Store {
            bytes: so_many_mut(bytes, lent.bytes),
            xy: so_many_mut(&mut self.xy, lent.xy),
            ends: so_many_mut(&mut self.ends, lent.ends),
            z: so_many_mut(&mut self.z, lent.z),
            m: so_many_mut(&mut self.m, lent.m),
            t: so_many_mut(&mut self.t, lent.t),
            tm: so_many_mut(&mut self.tm, lent.tm),
        }
    }
}

impl Memory {
    pub fn new(alloc: Global) -> Result<Memory, AllocError> {
        let table = vec![in alloc; 0u8; TABLE_BYTES]?;
        let buffer = vec![in alloc; 0u8; BUFFER_BYTES]?;
        let pools = Pools::new(alloc)?;
        Ok(Memory {
            table,
            buffer,
            pools,
        })
    }

    /// What a call is lent: as much of the table and the pools as its case lends, or of the buffer alone where it puts a property.
    pub fn lend(&mut self, call: &Call<'_>) -> Store<'_> {
        if call.sort == Some(Sort::Property) {
            return self.pools.lend(&mut self.buffer, call.lent.bytes_alone());
        }
        self.pools.lend(&mut self.table, call.lent)
    }

    pub fn clear_buffer(&mut self) {
        replay::clear(self.buffer.as_mut_slice());
    }
}

/// Lays canaries down in all that is lent.
pub fn clear(store: Store<'_>) {
    replay::clear(store.bytes);
    replay::clear(store.xy);
    replay::clear(store.ends);
    replay::clear(store.z);
    replay::clear(store.m);
    replay::clear(store.t);
    replay::clear(store.tm);
}

/// The checksum of all that is lent.
pub fn checksum(store: Store<'_>) -> u64 {
    let sum = with(1, store.bytes);
    let sum = with(sum, store.xy);
    let sum = with(sum, store.ends);
    let sum = with(sum, store.z);
    let sum = with(sum, store.m);
    let sum = with(sum, store.t);
    with(sum, store.tm)
}
