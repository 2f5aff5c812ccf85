// Geometry types, by the numbers of header.fbs.
ghost use Rattle.std.specs.Prelude.{◌≡◌, ◌<◌};
ghost use Rattle.kinds.specs.GeometryType.{number, TypeOf};

#[derive(Clone, Copy, Debug, PartialEq, Eq)]
pub enum GeometryType {
    Unknown = 0,
    Point = 1,
    LineString = 2,
    Polygon = 3,
    MultiPoint = 4,
    MultiLineString = 5,
    MultiPolygon = 6,
    GeometryCollection = 7,
    CircularString = 8,
    CompoundCurve = 9,
    CurvePolygon = 10,
    MultiCurve = 11,
    MultiSurface = 12,
    Curve = 13,
    Surface = 14,
    PolyhedralSurface = 15,
    Tin = 16,
    Triangle = 17,
}

// A byte that is no type's number.
#[derive(Clone, Copy, Debug, PartialEq, Eq)]
pub struct NoGeometryType;

impl TryFrom<u8> for GeometryType {
    type Error = NoGeometryType;

    ghost try_from_gives = { λ byte r. TypeOf byte r };

    fn try_from(byte: u8) -> Result<GeometryType, NoGeometryType> {
        match byte {
            0 => Ok(GeometryType::Unknown),
            1 => Ok(GeometryType::Point),
            2 => Ok(GeometryType::LineString),
            3 => Ok(GeometryType::Polygon),
            4 => Ok(GeometryType::MultiPoint),
            5 => Ok(GeometryType::MultiLineString),
            6 => Ok(GeometryType::MultiPolygon),
            7 => Ok(GeometryType::GeometryCollection),
            8 => Ok(GeometryType::CircularString),
            9 => Ok(GeometryType::CompoundCurve),
            10 => Ok(GeometryType::CurvePolygon),
            11 => Ok(GeometryType::MultiCurve),
            12 => Ok(GeometryType::MultiSurface),
            13 => Ok(GeometryType::Curve),
            14 => Ok(GeometryType::Surface),
            15 => Ok(GeometryType::PolyhedralSurface),
            16 => Ok(GeometryType::Tin),
            17 => Ok(GeometryType::Triangle),
            _ => Err(NoGeometryType),
        }
    }
}

impl GeometryType {
    pub fn number(self) -> u8
        ensures is { result ≡ number self }
        ensures few { result < 18 }
    {
        self as u8
    }
}

// The numbers by name, where a byte is compared that may be no type's.
pub const UNKNOWN: u8 = 0;

pub const POINT: u8 = 1;

pub const LINE_STRING: u8 = 2;

pub const POLYGON: u8 = 3;

pub const MULTI_POINT: u8 = 4;

pub const MULTI_LINE_STRING: u8 = 5;

pub const MULTI_POLYGON: u8 = 6;

pub const GEOMETRY_COLLECTION: u8 = 7;

pub const CIRCULAR_STRING: u8 = 8;

pub const COMPOUND_CURVE: u8 = 9;

pub const CURVE_POLYGON: u8 = 10;

pub const MULTI_CURVE: u8 = 11;

pub const MULTI_SURFACE: u8 = 12;

pub const CURVE: u8 = 13;

pub const SURFACE: u8 = 14;

pub const POLYHEDRAL_SURFACE: u8 = 15;

pub const TIN: u8 = 16;

pub const TRIANGLE: u8 = 17;
