//! A tree's readings, each into a log of its own length.
use crate::lists::{pool, same_bytes};
use crate::tree::Tree;
use event_log::{EVENT_BYTES, Events, Log};
use kinds::flags::Flags;
use kinds::refusal::answer_number;
use replay::{Differences, Fields, Memory, so_many};
use store::{Pools, Store};

#[derive(Clone, Copy)]
pub struct Reading {
    pub sort: u32,
    log_length: usize,
    number: u32,
    count: usize,
}

impl Reading {
    pub fn new(fields: &mut Fields<'_>) -> Reading {
        Reading {
            sort: fields.number(),
            log_length: fields.number() as usize,
            number: fields.number(),
            count: fields.number() as usize,
        }
    }
}

/// What differs in a reading of a tree that was laid down.
pub fn read(tree: &Tree<'_>, reading: Reading, memory: &mut Memory) -> Differences {
    let Some(log) = memory.bytes.as_mut_slice().get_mut(..reading.log_length) else {
        return Differences::CASE;
    };
    replay::clear(log);
    let (number, count) = read_tree(tree, &memory.table, &memory.words, &memory.ends, log);
    Differences {
        number: u32::from(number) != reading.number,
        count: count != reading.count,
        memory: !has_events(log, reading.count, tree.events),
        ..Differences::NONE
    }
}

// Whether a log of canaries has the tree's first events, so many, and is otherwise as it was. The records that were looked at are
// canaries afterwards.
fn has_events(log: &mut [u8], count: usize, events: &[u8]) -> bool {
    if count > log.len() / EVENT_BYTES {
        return false;
    }
    let said = &mut log[..EVENT_BYTES * count];
    let same = same_bytes(said, events);
    replay::clear(said);
    same & replay::is_clear(log)
}

// The number and the count that a reading of the tree answers. A pool that has no place is empty.
fn read_tree(
    tree: &Tree<'_>,
    table: &[u8],
    words: &[u64],
    ends: &[u32],
    log: &mut [u8],
) -> (u8, usize) {
    let store = Store {
        table: so_many(table, tree.table.count),
        pools: Pools {
            xy: pool(words, tree.xy).unwrap_or(&[]),
            ends: so_many(ends, tree.ends.count),
            z: pool(words, tree.z).unwrap_or(&[]),
            m: pool(words, tree.m).unwrap_or(&[]),
            t: pool(words, tree.t).unwrap_or(&[]),
            tm: pool(words, tree.tm).unwrap_or(&[]),
        },
    };
    let feature = tree.feature;
    let mut log = Log::new(log, Events { feature });
    let read = reader::read(&store, tree.declared, Flags::of(tree.flags), &mut log);
    (answer_number(&read), log.count())
}
