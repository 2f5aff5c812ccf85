//! Geometry records judged, and put down again.
use kinds::geometry::{Geometry, Stretch};
use kinds::lanes::Lanes;
use kinds::refusal::Refusal;
use replay::{Differences, Fields};

/// A list as a case has it: 0 where there is none and 1 where there is one, then its start and its count.
#[derive(Clone, Copy)]
struct List {
    presence: u32,
    start: u32,
    count: u32,
}

#[derive(Clone, Copy)]
struct Case {
    number: u32,
    record: usize,
    table_length: usize,
    place: usize,
    kind: u32,
    lent: [usize; 6],
    lists: [List; 7],
}

impl List {
    const NONE: List = List {
        presence: 0,
        start: 0,
        count: 0,
    };

    fn is(self, list: Option<Stretch>) -> bool {
        match list {
            Some(stretch) => {
                self.presence == 1 && self.start == stretch.start && self.count == stretch.count
            }
            None => self.presence == 0,
        }
    }
}

impl Case {
    fn new(fields: &mut Fields<'_>) -> Case {
        Case {
            number: fields.number(),
            record: fields.word() as usize,
            table_length: fields.number() as usize,
            place: fields.number() as usize,
            kind: fields.number(),
            lent: next_lent(fields),
            lists: next_lists(fields),
        }
    }
}

fn next_lent(fields: &mut Fields<'_>) -> [usize; 6] {
    let mut lent = [0; 6];
    for words in &mut lent {
        *words = fields.number() as usize;
    }
    lent
}

fn next_lists(fields: &mut Fields<'_>) -> [List; 7] {
    let mut lists = [List::NONE; 7];
    for list in &mut lists {
        *list = List {
            presence: fields.number(),
            start: fields.number(),
            count: fields.number(),
        };
    }
    lists
}

/// Behind its numbers a case has the record's bytes.
pub fn judged(mut fields: Fields<'_>, memory: &mut [u8]) -> Differences {
    let case = Case::new(&mut fields);
    let bytes = fields.rest();
    let Some(table) = memory.get_mut(..case.table_length) else {
        return Differences::CASE;
    };
    replay::lay(table, case.place, bytes.iter().copied());
    match ask(table, case) {
        Some(geometry) => put_down(geometry, table, bytes, case),
        None => Differences {
            number: case.number != u32::from(Refusal::BadRecord.number()),
            ..Differences::NONE
        },
    }
}

// The record, where it is a good one.
fn ask(table: &[u8], case: Case) -> Option<Geometry> {
    let [xy, ends, z, m, t, tm] = case.lent;
    let lent = Lanes {
        xy,
        ends,
        z,
        m,
        t,
        tm,
    };
    store::record_at(table, lent, case.record)
}

// In a table of canaries the record's own bytes come back, and nothing else changes.
fn put_down(geometry: Geometry, table: &mut [u8], bytes: &[u8], case: Case) -> Differences {
    replay::clear(table);
    if case.record >= store::records_lent(table) {
        return Differences::CASE;
    }
    store::put_record(table, case.record, geometry);
    Differences {
        number: case.number != 0,
        answer: u32::from(geometry.kind) != case.kind || !has_lists(geometry, case),
        memory: !replay::holds(table, case.place, bytes),
        ..Differences::NONE
    }
}

// Whether all lists are as the case has them.
fn has_lists(geometry: Geometry, case: Case) -> bool {
    let [xy, ends, z, m, t, tm, parts] = case.lists;
    xy.is(geometry.xy)
        && ends.is(geometry.ends)
        && z.is(geometry.z)
        && m.is(geometry.m)
        && t.is(geometry.t)
        && tm.is(geometry.tm)
        && parts.is(geometry.parts)
}
