// What a use of the machine chooses.

// `empty`: a Polygon, a MultiLineString or a MultiPolygon may be empty, as any other geometry of many things may be. `deeper`: the members of
// a MultiPoint or a MultiLineString lie one level deeper, as those of a MultiPolygon or a GeometryCollection do.
#[derive(Clone, Copy, Debug, PartialEq, Eq)]
pub struct Rules {
    pub empty: bool,
    pub deeper: bool,
}
