use crate::Differences;
use std::fmt::Display;

// So many cases are named; the others are only counted.
const NAMED: u64 = 10;

// No program has more sorts.
const SORTS: usize = 11;

/// A sort of cases, which is counted at a place of its own, and printed in words.
pub trait Sorted: Copy + Display {
    fn place(self) -> usize;
}

/// How many cases ran, of which sort, and how many differed. A line that cannot be written is passed over.
#[derive(Clone, Copy)]
pub struct Tally {
    counts: [u64; SORTS],
    cases: u64,
    differ: u64,
}

impl Tally {
    pub const NONE: Tally = Tally {
        counts: [0; SORTS],
        cases: 0,
        differ: 0,
    };

    /// Counts a case, and names what differs in it. A case of a sort that is not known has none.
    pub fn count<S: Sorted>(&mut self, rt: &impl Print, sort: Option<S>, differences: Differences) {
        self.cases = self.cases.saturating_add(1);
        if let Some(sort) = sort {
            self.count_sort(sort);
        }
        if differences == Differences::NONE {
            return;
        }
        self.differ = self.differ.saturating_add(1);
        if self.differ <= NAMED {
            let _ = println!(rt; "case {} differs:{differences}", self.cases);
        }
    }

    fn count_sort<S: Sorted>(&mut self, sort: S) {
        if let Some(count) = self.counts.get_mut(sort.place()) {
            *count = count.saturating_add(1);
        }
    }

    fn counted<S: Sorted>(&self, sort: S) -> u64 {
        self.counts.get(sort.place()).copied().unwrap_or(0)
    }

    pub fn report<S: Sorted>(&self, rt: &impl Print, sorts: &[S]) {
        for sort in sorts {
            let _ = println!(rt; "{sort} {}", self.counted(*sort));
        }
        let _ = println!(rt; "{} cases, {} differ", self.cases, self.differ);
    }
}
