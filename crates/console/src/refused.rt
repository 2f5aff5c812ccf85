// Why the library refused a call, in words.
use kinds::refusal::Refusal;
use std::fmt;

// Each refusal with its words.
const REASONS: [(Refusal, &str); 21] = [
    (Refusal::XyAbsent, "an xy list is absent"),
    (
        Refusal::Missing,
        "parts are absent, or a column is not below the column count",
    ),
    (Refusal::TypeUnknown, "unknown geometry type"),
    (Refusal::TypeNotACurve, "unexpected type in a curve"),
    (Refusal::TypesMixed, "types mixed"),
    (Refusal::NotUtf8, "text is not UTF-8"),
    (
        Refusal::PastList,
        "a coordinate or a z, m, t or tm value past its list",
    ),
    (
        Refusal::BadEnd,
        "an end that is 2^31 or larger, or less than the end before it",
    ),
    (Refusal::LogFull, "the log is full"),
    (Refusal::BadRecord, "bad geometry record or table"),
    (Refusal::Malformed, "malformed event or value"),
    (
        Refusal::NoRoom,
        "no room in a pool, the table or the property bytes",
    ),
    (Refusal::TooDeep, "a part at level 17"),
    (Refusal::ValueCut, "a property value cut short"),
    (Refusal::NotItsTurn, "not its turn"),
    (Refusal::ColumnTooLarge, "column number above 65,535"),
    (Refusal::OtherFeature, "an event of another feature"),
    (
        Refusal::WkbCut,
        "well-known binary that ends before a field is whole",
    ),
    (
        Refusal::WkbUnknown,
        "an order mark that is neither 0 nor 1, or a type that may not stand there",
    ),
    (Refusal::WkbLeftOver, "bytes behind the geometry"),
    (
        Refusal::BadlyNested,
        "events that are no geometry's: badly nested, tagged, indexed or sized",
    ),
];

// By the number that the library's calls answer, which C has too.
#[derive(Clone, Copy, Debug, PartialEq, Eq)]
pub struct Refused(u8);

impl Refused {
    pub const NOT_UTF8: Refused = Refused(Refusal::NotUtf8 as u8);

    pub const OTHER_FEATURE: Refused = Refused(Refusal::OtherFeature as u8);

    // What a call came to that answered this number.
    pub fn outcome(number: u8) -> Result<(), Refused> {
        if number == 0 {
            Ok(())
        } else {
            Err(Refused(number))
        }
    }

    // A number that is no refusal's has none.
    fn reason(self) -> &'static str {
        for (refusal, words) in REASONS {
            if refusal.number() == self.0 {
                return words;
            }
        }
        ""
    }
}

impl fmt::Display for Refused {
    fn fmt<W: fmt::Write>(&self, f: &mut fmt::Formatter<W>) -> fmt::Result {
        let number = self.0;
        let reason = self.reason();
        write!(f, "REFUSED with {number}, {reason}")
    }
}
