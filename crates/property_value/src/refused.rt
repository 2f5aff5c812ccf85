// Why a property is refused, written or read.
ghost use Rattle.std.specs.Prelude.{◌≡◌};
ghost use Rattle.property_value.specs.Refused.{refusal_of, place_of};
ghost use Rattle.property_value.specs.declared.refused.PropertyRefusal.TheVariants.{Other};

use kinds::refusal::Refusal;

// A text that is not UTF-8 has the place of its first bad byte, counted from the text's first.
#[derive(Clone, Copy, Debug, PartialEq, Eq)]
pub enum PropertyRefusal {
    NotUtf8(usize),
    Other(Refusal),
}

impl PropertyRefusal {
    pub fn refusal(self) -> Refusal
        ensures { result ≡ refusal_of self }
    {
        match self {
            PropertyRefusal::NotUtf8(_) => Refusal::NotUtf8,
            PropertyRefusal::Other(refusal) => refusal,
        }
    }

    // The bad byte's place, and 0 where there is none.
    pub fn place(self) -> usize
        ensures { result ≡ place_of self }
    {
        match self {
            PropertyRefusal::NotUtf8(place) => place,
            PropertyRefusal::Other(_) => 0,
        }
    }
}

impl From<Refusal> for PropertyRefusal {
    ghost from_gives = { λ refusal e. e ≡ Other refusal };

    fn from(refusal: Refusal) -> PropertyRefusal {
        PropertyRefusal::Other(refusal)
    }
}
