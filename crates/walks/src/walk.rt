// Which walk a record takes, by its type and by what it is a part of.
ghost use Rattle.std.specs.Prelude.{◌≡◌};
ghost use Rattle.walks.specs.Walks.{walk_under, walk_of, curve_walk, walk_in, WalkOf, WalkIn};

use kinds::geometry_type;
use kinds::geometry_type::GeometryType;
use kinds::refusal::Refusal;
use own_lists::Own;

// How a part is read: a collection's by its type, a MultiPolygon's as a polygon whatever its type, and a curve's by
// its type and the type of the record above it.
#[derive(Clone, Copy, Debug, PartialEq, Eq)]
pub enum Role {
    Geometry,
    Polygon,
    Curve { above: u8 },
}

// A record's own lists, or a begin and an end of a type with the parts between.
#[derive(Clone, Copy, Debug, PartialEq, Eq)]
pub enum Walk {
    Own(Own),
    Parts { kind: GeometryType, role: Role },
}

// The walk of a record under a type: the type rules of read_geometry_n. A curve's parts go by the type that is stored.
fn walk_under(kind: GeometryType, stored: u8) -> Result<Walk, Refusal>
    ensures { result ≡ walk_under kind stored }
{
    match kind {
        GeometryType::Point => Ok(Walk::Own(Own::Point)),
        GeometryType::LineString => Ok(Walk::Own(Own::LineString { tagged: true })),
        GeometryType::Polygon => Ok(Walk::Own(Own::Polygon { tagged: true })),
        GeometryType::MultiPoint => Ok(Walk::Own(Own::MultiPoint)),
        GeometryType::MultiLineString => Ok(Walk::Own(Own::MultiLineString)),
        GeometryType::MultiPolygon | GeometryType::PolyhedralSurface => Ok(Walk::Parts {
            kind,
            role: Role::Polygon,
        }),
        GeometryType::GeometryCollection => Ok(Walk::Parts {
            kind,
            role: Role::Geometry,
        }),
        GeometryType::CircularString => Ok(Walk::Own(Own::CircularString)),
        GeometryType::CompoundCurve
        | GeometryType::CurvePolygon
        | GeometryType::MultiCurve
        | GeometryType::MultiSurface => Ok(Walk::Parts {
            kind,
            role: Role::Curve { above: stored },
        }),
        GeometryType::Tin => Ok(Walk::Own(Own::Tin)),
        GeometryType::Triangle => Ok(Walk::Own(Own::Triangle)),
        GeometryType::Unknown | GeometryType::Curve | GeometryType::Surface => {
            Err(Refusal::TypeUnknown)
        }
    }
}

// The walk of a record under the type of a number.
pub fn walk_of(kind: u8, stored: u8) -> Result<Walk, Refusal>
    ensures typed { WalkOf kind stored result }
    ensures is { result ≡ walk_of kind stored }
{
    match GeometryType::try_from(kind) {
        Ok(kind) => walk_under(kind, stored),
        Err(_) => Err(Refusal::TypeUnknown),
    }
}

// The walk of a curve's part: the type rules of read_curve. Both types are bytes as they are stored, which may be no type's numbers.
fn curve_walk(above: u8, kind: u8) -> Result<Walk, Refusal>
    ensures { result ≡ curve_walk above kind }
{
    match kind {
        geometry_type::LINE_STRING => Ok(Walk::Own(Own::LineString { tagged: false })),
        geometry_type::CIRCULAR_STRING => Ok(Walk::Own(Own::CircularString)),
        geometry_type::COMPOUND_CURVE => {
            if above == geometry_type::COMPOUND_CURVE {
                Err(Refusal::TypeNotACurve)
            } else {
                Ok(Walk::Parts {
                    kind: GeometryType::CompoundCurve,
                    role: Role::Curve { above: kind },
                })
            }
        }
        geometry_type::POLYGON => {
            if above == geometry_type::MULTI_SURFACE {
                Ok(Walk::Own(Own::Polygon { tagged: true }))
            } else {
                Err(Refusal::TypeNotACurve)
            }
        }
        geometry_type::CURVE_POLYGON => {
            if above == geometry_type::MULTI_SURFACE {
                Ok(Walk::Parts {
                    kind: GeometryType::CurvePolygon,
                    role: Role::Curve { above: kind },
                })
            } else {
                Err(Refusal::TypeNotACurve)
            }
        }
        _ => Err(Refusal::TypeNotACurve),
    }
}

// The walk of a part in its role.
pub fn walk_in(role: Role, kind: u8) -> Result<Walk, Refusal>
    ensures typed { WalkIn role kind result }
    ensures is { result ≡ walk_in role kind }
{
    match role {
        Role::Geometry => walk_of(kind, kind),
        Role::Polygon => Ok(Walk::Own(Own::Polygon { tagged: false })),
        Role::Curve { above } => curve_walk(above, kind),
    }
}
