// A geometry record, its lists as stretches of the lent pools: no layout shows.

// Where a list stands in its pool.
#[derive(Clone, Copy, Debug, PartialEq, Eq)]
pub struct Stretch {
    pub start: u32,
    pub count: u32,
}

// Parts are a stretch of the geometry table.
#[derive(Clone, Copy, Debug, PartialEq, Eq)]
pub struct Geometry {
    pub kind: u8,
    pub xy: Option<Stretch>,
    pub ends: Option<Stretch>,
    pub z: Option<Stretch>,
    pub m: Option<Stretch>,
    pub t: Option<Stretch>,
    pub tm: Option<Stretch>,
    pub parts: Option<Stretch>,
}
