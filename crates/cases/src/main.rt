//! Runs the store, property bytes, the geometry reader and that of well-known binary on the cases of standard input, and counts what
//! differs.
#![tactic(auto)]

mod sort;

use crate::sort::Sort;
use reader_cases::{Reading, Tree, lay_tree, read};
use replay::{Differences, Fields, Memory, Program, Tally};
use std::alloc::AllocError;

const LONGEST_FRAME: usize = 300000;

#[derive(Drop)]
struct Readers {
    memory: Memory,
}

impl Program for Readers {
    type Sort = Sort;

    fn answer(&mut self, rt: &impl Print, case: &[u8], tally: &mut Tally) {
        let mut fields = Fields::new(case);
        let sort = Sort::of_number(fields.number());
        match sort {
            Some(Sort::Whole) => answer_tree(rt, case, fields, &mut self.memory, tally),
            _ => tally.count(rt, sort, differences(sort, fields, &mut self.memory)),
        }
    }
}

// What differs in a case that is no tree.
fn differences(sort: Option<Sort>, case: Fields<'_>, memory: &mut Memory) -> Differences {
    match sort {
        Some(Sort::Heard) => store_cases::heard(case),
        Some(Sort::Said) => store_cases::said(case, &mut memory.bytes),
        Some(Sort::Record) => store_cases::judged(case, &mut memory.bytes),
        Some(Sort::Boxed) => store_cases::boxed(case, memory),
        Some(Sort::Read) => property_cases::read(case, &mut memory.bytes),
        Some(Sort::Written) => property_cases::written(case, &mut memory.bytes),
        Some(Sort::WellKnownBinary) => wkb_cases::read(case, &mut memory.bytes),
        _ => Differences::CASE,
    }
}

// Counts each reading of a tree.
fn answer_tree<'a>(
    rt: &impl Print,
    case: &'a [u8],
    mut fields: Fields<'a>,
    memory: &mut Memory,
    tally: &mut Tally,
) {
    let tree = Tree::new(case, &mut fields);
    let is_laid = lay_tree(&tree, memory);
    for _ in 0..fields.number() {
        let reading = Reading::new(&mut fields);
        let differences = read(&tree, reading, memory);
        let differences = Differences {
            case: differences.case || !is_laid,
            ..differences
        };
        tally.count(rt, Sort::of_number(reading.sort), differences);
    }
}

fn main(rt: HostRuntime) -> Result<(), AllocError> {
    let mut readers = Readers {
        memory: Memory::new(rt.alloc())?,
    };
    replay::run(&rt, &Sort::ALL, LONGEST_FRAME, &mut readers)
}
