// Where the lists of a record stand in its bytes.
ghost use Rattle.std.specs.Prelude.{◌+◌, ◌≤◌, ◌<◌};

// The bit that says that a list is there, and the place of its start and count, four bytes each.
#[derive(Clone, Copy)]
pub struct Place {
    pub bit: u8,
    pub at: usize,
    ghost is_bit: { 0 < bit },
    ghost in_record: { at + 8 ≤ 64 },
}

pub const XY: Place = Place { bit: 1, at: 4 };

pub const ENDS: Place = Place { bit: 2, at: 12 };

pub const Z: Place = Place { bit: 4, at: 20 };

pub const M: Place = Place { bit: 8, at: 28 };

pub const T: Place = Place { bit: 16, at: 36 };

pub const TM: Place = Place { bit: 32, at: 44 };

pub const PARTS: Place = Place { bit: 64, at: 52 };
