use replay::Sorted;
use std::fmt;

/// What a case calls.
#[derive(Clone, Copy, PartialEq, Eq, PartialOrd, Ord)]
pub enum Sort {
    /// Starts a row.
    Row,
    Event,
    Events,
    Property,
    Finish,
    Next,
    /// No call: the state is handed over with the words that the case has.
    Words,
}

impl Sort {
    /// Each at the place of its number in a case.
    pub const ALL: [Sort; 7] = [
        Sort::Row,
        Sort::Event,
        Sort::Events,
        Sort::Property,
        Sort::Finish,
        Sort::Next,
        Sort::Words,
    ];

    pub fn of_number(number: u8) -> Option<Sort> {
        Sort::ALL.get(usize::from(number)).copied()
    }
}

impl Sorted for Sort {
    fn place(self) -> usize {
        self as usize
    }
}

impl fmt::Display for Sort {
    fn fmt<W: fmt::Write>(&self, f: &mut fmt::Formatter<W>) -> fmt::Result {
        f.write_str(match self {
            Sort::Row => "rows started",
            Sort::Event => "events, one in a call",
            Sort::Events => "calls with many events",
            Sort::Property => "properties",
            Sort::Finish => "finishes",
            Sort::Next => "nexts",
            Sort::Words => "states handed over",
        })
    }
}
