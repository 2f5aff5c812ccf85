// The types of geometry whose events the machine takes, and what each may hold.
ghost use Rattle.std.specs.Prelude.{◌≡◌, ℕ};
ghost use Rattle.nesting.specs.declared.geometry_type.GeometryType.{GeometryType};
ghost use Rattle.nesting.specs.Machine.{number, of_pairs, allowed};
ghost use Rattle.nesting.specs.Levels.{opens_where};
ghost use Rattle.nesting.specs.Taking.{OfNumber, ample, standing, tag_fits};

use crate::rules::Rules;

// A type's number, as header.fbs has it, is the variant's.
#[derive(Clone, Copy, Debug, PartialEq, Eq)]
pub enum GeometryType {
    Point = 1,
    LineString = 2,
    Polygon = 3,
    MultiPoint = 4,
    MultiLineString = 5,
    MultiPolygon = 6,
    Collection = 7,
}

impl GeometryType {
    // The type that has a number, if it is one of these.
    pub fn of(number: u8) -> Option<GeometryType>
        ensures { OfNumber number result }
    {
        match number {
            1 => Some(GeometryType::Point),
            2 => Some(GeometryType::LineString),
            3 => Some(GeometryType::Polygon),
            4 => Some(GeometryType::MultiPoint),
            5 => Some(GeometryType::MultiLineString),
            6 => Some(GeometryType::MultiPolygon),
            7 => Some(GeometryType::Collection),
            _ => None,
        }
    }

    pub fn number(self) -> u8
        ensures { result ≡ number self }
    {
        self as u8
    }

    // Whether the things in it are pairs.
    pub fn holds_pairs(self) -> bool
        ensures { result ≡ of_pairs self }
    {
        matches!(
            self,
            GeometryType::Point | GeometryType::LineString | GeometryType::MultiPoint
        )
    }

    // Whether its members lie one level deeper.
    pub fn opens(self, rules: Rules) -> bool
        ensures { result ≡ opens_where rules.deeper self }
    {
        match self {
            GeometryType::MultiPolygon | GeometryType::Collection => true,
            GeometryType::MultiPoint | GeometryType::MultiLineString => rules.deeper,
            GeometryType::Point | GeometryType::LineString | GeometryType::Polygon => false,
        }
    }

    // Whether a begin may say this size.
    pub fn may_hold(self, size: u32, rules: Rules) -> bool
        ensures { result ≡ allowed (ample rules.empty rules.deeper) self size }
    {
        match self {
            GeometryType::Point => size == 0,
            GeometryType::LineString | GeometryType::MultiPoint | GeometryType::Collection => true,
            GeometryType::Polygon | GeometryType::MultiLineString | GeometryType::MultiPolygon => {
                rules.empty | (1 <= size)
            }
        }
    }

    // Whether one of another type, with this tag, may stand inside. In a collection lines and polygons are tagged.
    pub fn takes(self, inner: GeometryType, tagged: bool) -> bool
        ensures { result ≡ tag_fits (standing self inner) tagged }
    {
        match (self, inner) {
            (GeometryType::Polygon | GeometryType::MultiLineString, GeometryType::LineString) =>
                !tagged,
            (GeometryType::MultiPolygon, GeometryType::Polygon) => !tagged,
            (GeometryType::Collection, GeometryType::LineString | GeometryType::Polygon) => tagged,
            (GeometryType::Collection, _) => !tagged,
            _ => false,
        }
    }
}

// What names one of these types: the type itself, or a byte, of which only the numbers of types name one.
pub trait Kind: Copy {
    ghost numbered: { Self → ℕ };

    fn of_type(kind: GeometryType) -> Self
        ensures { numbered result ≡ number kind };

    fn geometry_type(self) -> Option<GeometryType>
        ensures { OfNumber (numbered self) result };
}

impl Kind for GeometryType {
    ghost numbered = { number };

    fn of_type(kind: GeometryType) -> GeometryType {
        kind
    }

    fn geometry_type(self) -> Option<GeometryType> {
        Some(self)
    }
}

impl Kind for u8 {
    ghost numbered = { λ n. n };

    fn of_type(kind: GeometryType) -> u8 {
        kind.number()
    }

    fn geometry_type(self) -> Option<GeometryType> {
        GeometryType::of(self)
    }
}

// Whether the members of the type that a byte names lie one level deeper.
pub fn opens(kind: u8, rules: Rules) -> bool
    ensures { (type : GeometryType) → kind ≡ number type → result ≡ opens_where rules.deeper type }
{
    match GeometryType::of(kind) {
        Some(kind) => kind.opens(rules),
        None => false,
    }
}
