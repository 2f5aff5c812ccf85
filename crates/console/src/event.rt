// An event in words.
use crate::number::Double;
use crate::words::{content_name, type_name};
use event_log::EVENT_BYTES;
use kinds::event::{Event, Heard, bit_set};
use kinds::flags::Flags;
use kinds::geometry_type;
use std::fmt;

// What a kind of event says: a geometry of a type begins or ends, or a pair comes.
#[derive(Clone, Copy, Debug, PartialEq, Eq)]
pub enum Part {
    Begin(u8),
    End(u8),
    Pair,
}

pub fn part_of(kind: u8) -> Part {
    if kind < Event::END {
        Part::Begin(kind)
    } else if kind < Event::XY {
        Part::End(kind - Event::END)
    } else {
        Part::Pair
    }
}

// The event of a record, unless it is malformed.
pub fn heard(record: &[u8]) -> Option<Event> {
    if record.len() != EVENT_BYTES {
        return None;
    }
    match event_log::hear(record) {
        Heard::Malformed => None,
        _ => Some(event_log::event_in(record)),
    }
}

// An event that stands in a geometry of the type `inside`.
#[derive(Clone, Copy)]
pub struct Told {
    pub event: Event,
    pub inside: u8,
}

impl Told {
    // Of an untagged line it depends on what it stands in.
    fn name(self, kind: u8) -> &'static str {
        if kind != geometry_type::LINE_STRING || self.event.tagged {
            return type_name(kind);
        }
        match self.inside {
            geometry_type::POLYGON | geometry_type::TRIANGLE => "ring",
            _ => "line",
        }
    }

    // Counted from one, as people count.
    fn ordinal(self) -> u64 {
        u64::from(self.event.idx) + 1
    }

    fn write_begin<W: fmt::Write>(self, kind: u8, f: &mut fmt::Formatter<W>) -> fmt::Result {
        let name = self.name(kind);
        let ordinal = self.ordinal();
        write!(f, "{name} {ordinal}")?;
        if kind == geometry_type::POINT {
            return Ok(());
        }
        let size = self.event.size;
        let content = content_name(kind, size);
        write!(f, ": {size} {content}")
    }

    fn write_pair<W: fmt::Write>(self, f: &mut fmt::Formatter<W>) -> fmt::Result {
        let e = self.event;
        let x = Double(e.x);
        let y = Double(e.y);
        write!(f, "{x} {y}")?;
        write_value(f, bit_set(e.present, Flags::Z), "z", Double(e.z))?;
        write_value(f, bit_set(e.present, Flags::M), "m", Double(e.m))?;
        write_value(f, bit_set(e.present, Flags::T), "t", Double(e.t))?;
        // It is a count of nanoseconds, and no double.
        write_value(f, bit_set(e.present, Flags::TM), "tm", e.tm)
    }
}

fn write_value<W: fmt::Write, D: fmt::Display + Drop>(
    f: &mut fmt::Formatter<W>,
    present: bool,
    name: &str,
    value: D,
) -> fmt::Result {
    if !present {
        return Ok(());
    }
    write!(f, "  {name} {value}")
}

impl fmt::Display for Told {
    fn fmt<W: fmt::Write>(&self, f: &mut fmt::Formatter<W>) -> fmt::Result {
        match part_of(self.event.kind) {
            Part::Begin(kind) => self.write_begin(kind, f),
            Part::End(kind) => {
                let name = self.name(kind);
                let ordinal = self.ordinal();
                write!(f, "end of {name} {ordinal}")
            }
            Part::Pair => self.write_pair(f),
        }
    }
}

// A record of an event that stands in nothing.
#[derive(Clone, Copy)]
pub struct Record<'a>(pub &'a [u8]);

impl fmt::Display for Record<'_> {
    fn fmt<W: fmt::Write>(&self, f: &mut fmt::Formatter<W>) -> fmt::Result {
        match heard(self.0) {
            None => write!(f, "malformed"),
            Some(event) => Told {
                event,
                inside: geometry_type::UNKNOWN,
            }
            .fmt(f),
        }
    }
}
