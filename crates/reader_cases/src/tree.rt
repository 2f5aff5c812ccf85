//! The tree of a case: its table and its pools.
use crate::lists::{List, lay_bytes, lay_ends, lay_words};
use replay::{Fields, Memory};

#[derive(Clone, Copy)]
pub struct Tree<'a> {
    pub declared: u8,
    pub flags: u8,
    pub feature: u32,
    pub table: List<'a>,
    pub ends: List<'a>,
    pub xy: List<'a>,
    pub z: List<'a>,
    pub m: List<'a>,
    pub t: List<'a>,
    pub tm: List<'a>,
    /// The description of its events.
    pub events: &'a [u8],
}

impl<'a> Tree<'a> {
    /// The tree of a case, in front of which its sort stands. Its readings are next, a number that says how many and then each.
    pub fn new(case: &'a [u8], fields: &mut Fields<'a>) -> Tree<'a> {
        Tree {
            declared: fields.small_number(),
            flags: fields.small_number(),
            feature: fields.number(),
            table: next_list(case, fields),
            ends: next_list(case, fields),
            xy: next_pool(case, fields),
            z: next_pool(case, fields),
            m: next_pool(case, fields),
            t: next_pool(case, fields),
            tm: next_pool(case, fields),
            events: next_description(case, fields),
        }
    }
}

// The description that stands where a number says, counted in numbers.
fn next_description<'a>(case: &'a [u8], fields: &mut Fields<'a>) -> &'a [u8] {
    let at = 4 * fields.number() as usize;
    case.get(at..).unwrap_or(&[])
}

fn next_list<'a>(case: &'a [u8], fields: &mut Fields<'a>) -> List<'a> {
    List {
        place: 0,
        count: fields.number() as usize,
        description: next_description(case, fields),
    }
}

// A pool has its place among all words, which stands before its count.
fn next_pool<'a>(case: &'a [u8], fields: &mut Fields<'a>) -> List<'a> {
    List {
        place: fields.number() as usize,
        count: fields.number() as usize,
        description: next_description(case, fields),
    }
}

/// Lays down the table and the pools, and says whether all have their memory.
pub fn lay_tree(tree: &Tree<'_>, memory: &mut Memory) -> bool {
    let words = memory.words.as_mut_slice();
    lay_bytes(&mut memory.table, tree.table)
        & lay_ends(&mut memory.ends, tree.ends)
        & lay_words(words, tree.xy)
        & lay_words(words, tree.z)
        & lay_words(words, tree.m)
        & lay_words(words, tree.t)
        & lay_words(words, tree.tm)
}
