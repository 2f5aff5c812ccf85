// A double or a float, by its bit pattern, as a decimal number with seven digits behind the point, rounded half to even.
#![tactic(auto)]

mod finite;
mod format;
mod fraction;
mod text;

ghost use Rattle.std.specs.Prelude.{◌≡◌};
ghost use Rattle.decimal.specs.Magnitude.{of_double, of_float};

pub use format::{DOUBLE, FLOAT, Format};
pub use text::{Signed, TEXT_BYTES, spell};

// Ten-millionths in one.
const ONE: u64 = 10000000;

// A number without its sign: what stands before the point, and behind it in ten-millionths.
#[derive(Clone, Copy, Debug, PartialEq, Eq)]
pub struct Decimal {
    pub whole: u64,
    pub fraction: u64,
}

// A pattern without its sign. What does not fit a word before the point is vast.
#[derive(Clone, Copy, Debug, PartialEq, Eq)]
pub enum Magnitude {
    Finite(Decimal),
    Vast,
    Infinite,
    NotANumber,
}

pub fn of_double(bits: u64) -> Magnitude
    ensures { result ≡ of_double bits }
{
    DOUBLE.magnitude(bits)
}

pub fn of_float(bits: u32) -> Magnitude
    ensures { result ≡ of_float bits }
{
    FLOAT.magnitude(u64::from(bits))
}
