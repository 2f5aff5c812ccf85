// Events: what a geometry reader says and a geometry writer hears.
ghost use Rattle.std.specs.Prelude.{◌≡◌, cond, ◌<◌};
ghost use Rattle.kinds.specs.Event.{uses_of, keeps_uses, is_quiet, begin_e, end_e, xy_e, coordinate_e, bit_set};

use crate::flags::Flags;

#[derive(Clone, Copy, Debug, PartialEq, Eq)]
pub struct Event {
    pub kind: u8,
    pub tagged: bool,
    pub present: u8,
    pub size: u32,
    pub idx: u32,
    pub x: u64,
    pub y: u64,
    pub z: u64,
    pub m: u64,
    pub t: u64,
    pub tm: u64,
}

// Which fields an event's kind uses: all use idx.
#[derive(Clone, Copy, Debug, PartialEq, Eq)]
pub struct Uses {
    pub idx: bool,
    pub tagged: bool,
    pub size: bool,
    pub pair: bool,
    pub present: bool,
}

// What a record's bytes were heard as.
#[derive(Clone, Copy, Debug, PartialEq, Eq)]
pub enum Heard {
    // An xy event: no more than an index and a pair.
    Pair { x: u64, y: u64 },
    // A coordinate event: a pair with the values that are present.
    Coordinate(Event),
    // A begin that sets no type: of a line, a polygon or a triangle inside another geometry.
    Quiet,
    // Any other event.
    Other(Event),
    Malformed,
}

// A pair, as bit patterns.
#[derive(Clone, Copy, Debug, PartialEq, Eq)]
pub struct Xy {
    pub x: u64,
    pub y: u64,
}

impl Event {
    // Begin kinds carry the type number.
    pub const POINT_BEGIN: u8 = 1;

    pub const LINE_STRING_BEGIN: u8 = 2;

    pub const POLYGON_BEGIN: u8 = 3;

    pub const MULTI_POINT_BEGIN: u8 = 4;

    pub const MULTI_LINE_STRING_BEGIN: u8 = 5;

    pub const MULTI_POLYGON_BEGIN: u8 = 6;

    pub const GEOMETRY_COLLECTION_BEGIN: u8 = 7;

    pub const CIRCULAR_STRING_BEGIN: u8 = 8;

    pub const COMPOUND_CURVE_BEGIN: u8 = 9;

    pub const CURVE_POLYGON_BEGIN: u8 = 10;

    pub const MULTI_CURVE_BEGIN: u8 = 11;

    pub const MULTI_SURFACE_BEGIN: u8 = 12;

    pub const POLYHEDRAL_SURFACE_BEGIN: u8 = 15;

    pub const TIN_BEGIN: u8 = 16;

    pub const TRIANGLE_BEGIN: u8 = 17;

    // End kinds carry the type number plus this.
    pub const END: u8 = 32;

    pub const POINT_END: u8 = 33;

    pub const LINE_STRING_END: u8 = 34;

    pub const POLYGON_END: u8 = 35;

    pub const MULTI_POINT_END: u8 = 36;

    pub const MULTI_LINE_STRING_END: u8 = 37;

    pub const MULTI_POLYGON_END: u8 = 38;

    pub const GEOMETRY_COLLECTION_END: u8 = 39;

    pub const CIRCULAR_STRING_END: u8 = 40;

    pub const COMPOUND_CURVE_END: u8 = 41;

    pub const CURVE_POLYGON_END: u8 = 42;

    pub const MULTI_CURVE_END: u8 = 43;

    pub const MULTI_SURFACE_END: u8 = 44;

    pub const POLYHEDRAL_SURFACE_END: u8 = 47;

    pub const TIN_END: u8 = 48;

    pub const TRIANGLE_END: u8 = 49;

    pub const XY: u8 = 64;

    pub const COORDINATE: u8 = 65;

    pub const POINT_BEGIN_USES: Uses = Uses {
        idx: true,
        ..Event::NO_USES
    };

    pub const BEGIN_USES: Uses = Uses {
        idx: true,
        size: true,
        ..Event::NO_USES
    };

    // The begin of a LineString, a Polygon or a Triangle uses `tagged` too.
    pub const TAGGED_BEGIN_USES: Uses = Uses {
        idx: true,
        tagged: true,
        size: true,
        ..Event::NO_USES
    };

    pub const END_USES: Uses = Uses {
        idx: true,
        ..Event::NO_USES
    };

    pub const TAGGED_END_USES: Uses = Uses {
        idx: true,
        tagged: true,
        ..Event::NO_USES
    };

    pub const XY_USES: Uses = Uses {
        idx: true,
        pair: true,
        ..Event::NO_USES
    };

    pub const COORDINATE_USES: Uses = Uses {
        idx: true,
        pair: true,
        present: true,
        ..Event::NO_USES
    };

    // What a number that is no kind uses.
    pub const NO_USES: Uses = Uses {
        idx: false,
        tagged: false,
        size: false,
        pair: false,
        present: false,
    };

    pub fn uses(kind: u8) -> Uses
        ensures { result ≡ uses_of kind }
    {
        match kind {
            Event::POINT_BEGIN => Event::POINT_BEGIN_USES,
            Event::LINE_STRING_BEGIN..=Event::POLYGON_BEGIN => Event::TAGGED_BEGIN_USES,
            Event::MULTI_POINT_BEGIN..=Event::MULTI_SURFACE_BEGIN => Event::BEGIN_USES,
            Event::POLYHEDRAL_SURFACE_BEGIN..=Event::TIN_BEGIN => Event::BEGIN_USES,
            Event::TRIANGLE_BEGIN => Event::TAGGED_BEGIN_USES,
            Event::POINT_END => Event::END_USES,
            Event::LINE_STRING_END..=Event::POLYGON_END => Event::TAGGED_END_USES,
            Event::MULTI_POINT_END..=Event::MULTI_SURFACE_END => Event::END_USES,
            Event::POLYHEDRAL_SURFACE_END..=Event::TIN_END => Event::END_USES,
            Event::TRIANGLE_END => Event::TAGGED_END_USES,
            Event::XY => Event::XY_USES,
            Event::COORDINATE => Event::COORDINATE_USES,
            _ => Event::NO_USES,
        }
    }

    // Whether each field that is not used, and each value that is not present, is zero. What does not use idx is no kind.
    pub fn keeps(self, uses: Uses) -> bool
        ensures { result ≡ keeps_uses self uses }
    {
        let present = self.present;
        let values = uses.present;
        uses.idx
            & (uses.tagged | !self.tagged)
            & (values | (present == 0))
            & (present < 16)
            & (uses.size | (self.size == 0))
            & (uses.pair | (self.x == 0))
            & (uses.pair | (self.y == 0))
            & ((values & bit_set(present, Flags::Z)) | (self.z == 0))
            & ((values & bit_set(present, Flags::M)) | (self.m == 0))
            & ((values & bit_set(present, Flags::T)) | (self.t == 0))
            & ((values & bit_set(present, Flags::TM)) | (self.tm == 0))
    }

    // Whether it is a begin that sets no type: of a line, a polygon or a triangle, and not tagged.
    pub fn is_quiet(self) -> bool
        ensures { result ≡ is_quiet self }
    {
        let kind = self.kind;
        ((kind == Event::LINE_STRING_BEGIN)
            | (kind == Event::POLYGON_BEGIN)
            | (kind == Event::TRIANGLE_BEGIN))
            & !self.tagged
    }

    // A begin or an end, of which one that sets no type is told from the others.
    pub fn told_frame(self) -> Heard
        ensures { result ≡ cond (is_quiet self) Heard.Quiet (Heard.Other self) }
    {
        if self.is_quiet() {
            Heard::Quiet
        } else {
            Heard::Other(self)
        }
    }

    // Every field zero. A constructor sets those that its kind uses.
    const UNSET: Event = Event {
        kind: 0,
        tagged: false,
        present: 0,
        size: 0,
        idx: 0,
        x: 0,
        y: 0,
        z: 0,
        m: 0,
        t: 0,
        tm: 0,
    };

    pub fn begin(kind: u8, tagged: bool, size: u32, idx: u32) -> Event
        ensures { result ≡ begin_e kind tagged size idx }
    {
        Event {
            kind,
            tagged,
            size,
            idx,
            ..Event::UNSET
        }
    }

    // The end of a geometry of a type.
    pub fn end(kind: u8, tagged: bool, idx: u32) -> Event
        requires { kind < 32 }
        ensures { result ≡ end_e kind tagged idx }
    {
        Event {
            kind: kind + Event::END,
            tagged,
            idx,
            ..Event::UNSET
        }
    }

    pub fn xy(x: u64, y: u64, idx: u32) -> Event
        ensures { result ≡ xy_e x y idx }
    {
        Event {
            kind: Event::XY,
            idx,
            x,
            y,
            ..Event::UNSET
        }
    }

    pub fn coordinate(
        x: u64,
        y: u64,
        present: u8,
        z: u64,
        m: u64,
        t: u64,
        tm: u64,
        idx: u32,
    ) -> Event
        ensures { result ≡ coordinate_e x y present z m t tm idx }
    {
        Event {
            kind: Event::COORDINATE,
            present,
            idx,
            x,
            y,
            z,
            m,
            t,
            tm,
            ..Event::UNSET
        }
    }
}

pub fn bit_set(bits: u8, bit: u8) -> bool
    requires { 0 < bit }
    ensures { result ≡ bit_set bits bit }
{
    bits / bit % 2 == 1
}
