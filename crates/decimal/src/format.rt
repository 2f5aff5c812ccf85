// How IEEE 754 lays a number out in a word.
ghost use Rattle.std.specs.Prelude.{◌≡◌, ◌%◌, ◌/◌, leb};
ghost use Rattle.decimal.specs.Magnitude.{special as Special, magnitude};
ghost use Rattle.decimal.specs.FormatLaws.{IsFormat};

use crate::Magnitude;
use crate::finite::finite;

#[derive(Clone, Copy)]
pub struct Format {
    // The word's highest bit.
    pub sign: u64,
    // The bit above the fraction field, which a mantissa has unless its exponent field is zero.
    pub implied: u64,
    // The exponent field of what has no digits.
    pub special: u64,
    // The exponent field at which a mantissa is a whole number as it stands, and how far it then goes up within a word.
    pub point: u64,
    pub up: u64,
}

const DOUBLE_POINT: u64 = 1075;

const DOUBLE_UP: u64 = 11;

pub const DOUBLE: Format = Format {
    sign: 0x8000_0000_0000_0000,
    implied: 0x0010_0000_0000_0000,
    special: 2047,
    point: DOUBLE_POINT,
    up: DOUBLE_UP,
};

pub const FLOAT: Format = Format {
    sign: 0x8000_0000,
    implied: 0x0080_0000,
    special: 255,
    point: 150,
    up: 40,
};

fn special(fraction: u64) -> Magnitude
    ensures { result ≡ Special fraction }
{
    if fraction == 0 {
        Magnitude::Infinite
    } else {
        Magnitude::NotANumber
    }
}

impl Format {
    pub fn is_negative(self, bits: u64) -> bool
        ensures { result ≡ leb self.sign bits }
    {
        self.sign <= bits
    }

    pub fn magnitude(self, bits: u64) -> Magnitude
        requires { IsFormat self.sign self.implied self.point self.up }
        ensures { result ≡ magnitude self.special self.implied self.point (bits % self.sign / self.implied) (bits % self.implied) }
    {
        let exponent = bits % self.sign / self.implied;
        let fraction = bits % self.implied;
        if exponent == self.special {
            return special(fraction);
        }
        if exponent == 0 {
            return finite(fraction, 1, self.point, self.up);
        }
        finite(fraction + self.implied, exponent, self.point, self.up)
    }
}
