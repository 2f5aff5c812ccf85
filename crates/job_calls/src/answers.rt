// What the library's calls answer, beside a number.
use console::Refused;

// A reading that was refused, and how many events it came to before.
#[derive(Clone, Copy, Debug, PartialEq, Eq)]
pub struct Unread {
    pub refused: Refused,
    pub count: usize,
}

// A value that was refused, and where in its text the first byte stands that begins no character.
#[derive(Clone, Copy, Debug, PartialEq, Eq)]
pub struct BadValue {
    pub refused: Refused,
    pub place: usize,
}

// A box by the bit patterns of its edges.
#[derive(Clone, Copy, Debug, PartialEq, Eq)]
pub struct Edges {
    pub least_x: u64,
    pub least_y: u64,
    pub greatest_x: u64,
    pub greatest_y: u64,
}

const INFINITY: u64 = 0x7ff0_0000_0000_0000;

const MINUS_INFINITY: u64 = 0xfff0_0000_0000_0000;

impl Edges {
    // Around what no pair moved.
    pub const NOTHING: Edges = Edges {
        least_x: INFINITY,
        least_y: INFINITY,
        greatest_x: MINUS_INFINITY,
        greatest_y: MINUS_INFINITY,
    };
}
