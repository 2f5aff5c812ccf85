// Doubles and floats in decimal, by their bit patterns.
use decimal::{DOUBLE, FLOAT, Magnitude, Signed, of_double, of_float};
use std::fmt;

#[derive(Clone, Copy, Debug, PartialEq, Eq)]
pub struct Double(pub u64);

#[derive(Clone, Copy, Debug, PartialEq, Eq)]
pub struct Float(pub u32);

#[derive(Clone, Copy)]
struct Number {
    negative: bool,
    magnitude: Magnitude,
    bits: u64,
}

// A magnitude that does not fit is given by its bit pattern.
impl fmt::Display for Number {
    fn fmt<W: fmt::Write>(&self, f: &mut fmt::Formatter<W>) -> fmt::Result {
        let negative = self.negative;
        let bits = self.bits;
        match self.magnitude {
            Magnitude::Finite(decimal) => Signed { negative, decimal }.fmt(f),
            Magnitude::Vast => write!(f, "the bits 0x{bits:016x}"),
            Magnitude::Infinite if negative => write!(f, "-infinity"),
            Magnitude::Infinite => write!(f, "infinity"),
            Magnitude::NotANumber => write!(f, "not a number"),
        }
    }
}

impl fmt::Display for Double {
    fn fmt<W: fmt::Write>(&self, f: &mut fmt::Formatter<W>) -> fmt::Result {
        let bits = self.0;
        Number {
            negative: DOUBLE.is_negative(bits),
            magnitude: of_double(bits),
            bits,
        }
        .fmt(f)
    }
}

impl fmt::Display for Float {
    fn fmt<W: fmt::Write>(&self, f: &mut fmt::Formatter<W>) -> fmt::Result {
        let bits = u64::from(self.0);
        Number {
            negative: FLOAT.is_negative(bits),
            magnitude: of_float(self.0),
            bits,
        }
        .fmt(f)
    }
}
