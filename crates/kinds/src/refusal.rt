// Why a call is refused.
ghost use Rattle.std.specs.Prelude.{◌≡◌};
ghost use Rattle.kinds.specs.Refusal.{number_of, answer_of};

// The number that C hears is the variant's.
#[derive(Clone, Copy, Debug, PartialEq, Eq)]
pub enum Refusal {
    XyAbsent = 1,
    // No list of parts where one is needed, or no column of a property's number.
    Missing = 2,
    TypeUnknown = 3,
    TypeNotACurve = 4,
    TypesMixed = 5,
    NotUtf8 = 6,
    // A coordinate, or a z, m, t or tm value, past its list.
    PastList = 7,
    // An end that is 2^31 or larger, or less than the end before it.
    BadEnd = 8,
    LogFull = 9,
    // A bad geometry record or table.
    BadRecord = 10,
    // A malformed event; a value with no such type, a Bool above 1, bits beyond its width.
    Malformed = 11,
    // No room in a pool, the table or the property buffer.
    NoRoom = 12,
    TooDeep = 13,
    ValueCut = 14,
    // Another call than next while a finished feature waits, or next while none does.
    NotItsTurn = 15,
    ColumnTooLarge = 16,
    // An event of another feature than the one in hand.
    OtherFeature = 17,
    // Well-known binary that ends before a field is whole.
    WkbCut = 18,
    // An order mark that is neither 0 nor 1, or a type that may not stand there.
    WkbUnknown = 19,
    // Bytes behind the geometry.
    WkbLeftOver = 20,
    // Events that are no geometry's: badly nested, tagged, indexed or sized.
    BadlyNested = 21,
}

impl Refusal {
    pub fn number(self) -> u8
        ensures { result ≡ number_of self }
    {
        self as u8
    }
}

// The number that C hears of a call: 0 for done.
pub fn answer_number<T>(answer: &Result<T, Refusal>) -> u8
    ensures { result ≡ answer_of answer.now }
{
    match answer {
        Ok(_) => 0,
        Err(refusal) => refusal.number(),
    }
}
