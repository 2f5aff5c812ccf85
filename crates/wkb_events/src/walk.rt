// What a pass over the list counts: how many geometries are open, and what the events come to as well-known binary.
ghost use Rattle.std.specs.Prelude.{◌≡◌, Bool, ℕ, ◌+◌, ◌-◌, ◌≤◌, ◌<◌};
ghost use Rattle.nesting.specs.declared.geometry_type.GeometryType.{GeometryType};
ghost use Rattle.nesting.specs.Events.{begin, end, pair};
ghost use Rattle.wkb_events.specs.Walk.{Moved, begin_long, pairs_on, started};

use nesting::{GeometryType, Rules};
use wkb_written::Around;

// The rules of well-known binary: every geometry may be empty, and all members lie one level deeper.
pub const WKB: Rules = Rules {
    empty: true,
    deeper: true,
};

// The last level: a geometry that stands there may have no members.
const LEVELS: usize = 16;

const HEAD_BYTES: usize = 5;

const COUNT_BYTES: usize = 4;

const PAIR_BYTES: usize = 16;

// `height` geometries are open, and `highest` were at most. `deep`: one that has members stood at the last level. `around`: what the next
// event stands in. `length`: so many bytes.
#[derive(Clone, Copy, Debug, PartialEq, Eq)]
pub struct Walk {
    pub height: usize,
    pub highest: usize,
    pub deep: bool,
    pub around: Around,
    pub length: usize,
}

// How many bytes a begin comes to: a ring has no order mark and no type, a Point no count. `bare`: a line is a ring.
fn begin_length(kind: GeometryType, bare: bool) -> usize
    ensures { result ≡ begin_long kind bare }
{
    match kind {
        GeometryType::Point => HEAD_BYTES,
        GeometryType::LineString if bare => COUNT_BYTES,
        _ => HEAD_BYTES + COUNT_BYTES,
    }
}

impl Walk {
    // Nothing was counted.
    pub fn start() -> Walk
        ensures { result ≡ started }
    {
        Walk {
            height: 0,
            highest: 0,
            deep: false,
            around: Around::OUTERMOST,
            length: 0,
        }
    }

    pub fn pair(self) -> Walk
        requires { self.length < 9223372036854775808 }
        ensures { (x y idx : ℕ) → Moved self (pair x y idx) self.height result }
    {
        self.pairs(1)
    }

    // So many pairs, one behind the other.
    pub fn pairs(self, count: u32) -> Walk
        requires { self.length < 9223372036854775808 }
        ensures { result ≡ pairs_on self count }
    {
        let wide = if self.around.points {
            HEAD_BYTES + PAIR_BYTES
        } else {
            PAIR_BYTES
        };
        Walk {
            length: self.length + wide * (count as usize),
            ..self
        }
    }

    pub fn begin(self, kind: GeometryType, tagged: bool, size: u32) -> Walk
        requires { (self.length < 9223372036854775808) × (self.height < 9223372036854775808) }
        ensures { (idx : ℕ) → Moved self (begin kind tagged size idx) (self.height + 1) result }
    {
        let height = self.height + 1;
        Walk {
            height,
            highest: self.highest.max(height),
            deep: (kind.opens(WKB) & (1 <= size) & (LEVELS <= height)) | self.deep,
            around: self.around.behind_begin(kind),
            length: self.length + begin_length(kind, self.around.rings & !tagged),
        }
    }

    pub fn end(self) -> Walk
        requires { 0 < self.height }
        ensures { (kind : GeometryType) (tagged : Bool) (idx : ℕ) → Moved self (end kind tagged idx) (self.height - 1) result }
    {
        Walk {
            height: self.height - 1,
            ..self
        }
    }
}
