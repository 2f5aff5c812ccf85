use replay::Sorted;
use std::fmt;

/// What a case is of. A tree has readings of the four from Whole on, each a case of its own.
#[derive(Clone, Copy, PartialEq, Eq, PartialOrd, Ord)]
pub enum Sort {
    Heard,
    Said,
    Record,
    Boxed,
    Read,
    Written,
    Whole,
    Cut,
    Bad,
    Large,
    WellKnownBinary,
}

impl Sort {
    /// Each at the place of its number in a case.
    pub const ALL: [Sort; 11] = [
        Sort::Heard,
        Sort::Said,
        Sort::Record,
        Sort::Boxed,
        Sort::Read,
        Sort::Written,
        Sort::Whole,
        Sort::Cut,
        Sort::Bad,
        Sort::Large,
        Sort::WellKnownBinary,
    ];

    pub fn of_number(number: u32) -> Option<Sort> {
        Sort::ALL.get(number as usize).copied()
    }
}

impl Sorted for Sort {
    fn place(self) -> usize {
        self as usize
    }
}

impl fmt::Display for Sort {
    fn fmt<W: fmt::Write>(&self, f: &mut fmt::Formatter<W>) -> fmt::Result {
        f.write_str(match self {
            Sort::Heard => "events heard",
            Sort::Said => "events said to a log",
            Sort::Record => "geometry records",
            Sort::Boxed => "boxes",
            Sort::Read => "property lists read",
            Sort::Written => "properties written",
            Sort::Whole => "trees read whole",
            Sort::Cut => "trees cut by a short log",
            Sort::Bad => "bad records and tables",
            Sort::Large => "large trees",
            Sort::WellKnownBinary => "well-known binary read",
        })
    }
}
