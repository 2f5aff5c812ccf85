//! Boxes of geometries by record number. A case has a run of the table's records, and the words that their lists are in.
use bbox::{Box, edges_of};
use kinds::refusal::answer_number;
use replay::{Differences, Fields, Memory, so_many};
use store::{Pools, Store};

/// How much of each pool is lent.
#[derive(Clone, Copy)]
struct Lent {
    xy: usize,
    xy_place: usize,
    ends: usize,
    z: usize,
    m: usize,
    t: usize,
    tm: usize,
}

#[derive(Clone, Copy)]
struct Case {
    number: u32,
    record: usize,
    table_length: usize,
    place: usize,
    table_bytes: usize,
    lent: Lent,
    edges: [u64; 4],
}

impl Lent {
    fn new(fields: &mut Fields<'_>) -> Lent {
        Lent {
            xy: fields.number() as usize,
            xy_place: fields.number() as usize,
            ends: fields.number() as usize,
            z: fields.number() as usize,
            m: fields.number() as usize,
            t: fields.number() as usize,
            tm: fields.number() as usize,
        }
    }
}

impl Case {
    fn new(fields: &mut Fields<'_>) -> Case {
        Case {
            number: fields.number(),
            record: fields.word() as usize,
            table_length: fields.number() as usize,
            place: fields.number() as usize,
            table_bytes: fields.number() as usize,
            lent: Lent::new(fields),
            edges: [fields.word(), fields.word(), fields.word(), fields.word()],
        }
    }
}

/// Behind its numbers a case has the bytes of the table, and then the words.
pub fn boxed(mut fields: Fields<'_>, memory: &mut Memory) -> Differences {
    let case = Case::new(&mut fields);
    let Some(table) = memory.table.as_mut_slice().get_mut(..case.table_length) else {
        return Differences::CASE;
    };
    let Some(xy) = memory.words.as_mut_slice().get_mut(..case.lent.xy) else {
        return Differences::CASE;
    };
    let table_bytes = fields.bytes(case.table_bytes);
    replay::lay(table, case.place, table_bytes.iter().copied());
    let words = fields.rest().as_chunks::<8>().0.iter();
    replay::lay(
        xy,
        case.lent.xy_place,
        words.map(|word| u64::from_le_bytes(*word)),
    );
    let (number, edges) = ask(memory, case);
    Differences {
        number: u32::from(number) != case.number,
        answer: edges != case.edges,
        ..Differences::NONE
    }
}

// The number and the edges that a box answers. Of the pools but xy only the lengths are looked at.
fn ask(memory: &Memory, case: Case) -> (u8, [u64; 4]) {
    let words = memory.words.as_slice();
    let pools = Pools {
        xy: so_many(words, case.lent.xy),
        ends: so_many(&memory.ends, case.lent.ends),
        z: so_many(words, case.lent.z),
        m: so_many(words, case.lent.m),
        t: so_many(words, case.lent.t),
        tm: so_many(words, case.lent.tm),
    };
    let table = so_many(&memory.table, case.table_length);
    let boxed = record_box::box_at(&Store { table, pools }, case.record);
    (
        answer_number(&boxed),
        edges_of(boxed.unwrap_or(Box::empty())),
    )
}
