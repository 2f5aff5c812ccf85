// Which of z, m, t and tm a reading hands out.
ghost use Rattle.std.specs.Prelude.{◌≡◌, ◌||◌};
ghost use Rattle.kinds.specs.Flags.{flags_of};

use crate::event::bit_set;

#[derive(Clone, Copy, Debug, PartialEq, Eq)]
pub struct Flags {
    pub z: bool,
    pub m: bool,
    pub t: bool,
    pub tm: bool,
}

impl Flags {
    // The bits of z, m, t and tm in an event's present byte.
    pub const Z: u8 = 1;

    pub const M: u8 = 2;

    pub const T: u8 = 4;

    pub const TM: u8 = 8;

    // Flags from the bits of a byte; those above tm's are not looked at.
    pub fn of(bits: u8) -> Flags
        ensures { result ≡ flags_of bits }
    {
        Flags {
            z: bit_set(bits, Flags::Z),
            m: bit_set(bits, Flags::M),
            t: bit_set(bits, Flags::T),
            tm: bit_set(bits, Flags::TM),
        }
    }

    pub fn multi(self) -> bool
        ensures { result ≡ (self.z || self.m || self.t || self.tm) }
    {
        self.z | self.m | self.t | self.tm
    }
}
