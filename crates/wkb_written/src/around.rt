// What the next event of well-known binary stands in.
ghost use Rattle.std.specs.Prelude.{◌≡◌, Bool, ℕ};
ghost use Rattle.nesting.specs.Events.{begin};
ghost use Rattle.wkb_written.specs.Spelling.{after};

use nesting::GeometryType;

// A line inside a Polygon is a ring, which has no head; a pair inside a MultiPoint is a Point, which has one.
#[derive(Clone, Copy, Debug, PartialEq, Eq)]
pub struct Around {
    pub rings: bool,
    pub points: bool,
}

impl Around {
    pub const OUTERMOST: Around = Around {
        rings: false,
        points: false,
    };

    // What stands around the event behind a begin.
    pub fn behind_begin(self, kind: GeometryType) -> Around
        ensures { (tagged : Bool) (size idx : ℕ) → result ≡ after self (begin kind tagged size idx) }
    {
        let rings = match kind {
            GeometryType::Polygon => true,
            GeometryType::MultiLineString => false,
            _ => self.rings,
        };
        Around {
            rings,
            points: kind == GeometryType::MultiPoint,
        }
    }
}
