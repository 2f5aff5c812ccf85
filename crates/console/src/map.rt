// The map of a feature: the events that came back, one to a line.
use crate::event::{Part, Told, heard, part_of};
use event_log::EVENT_BYTES;
use kinds::event::Event;
use kinds::geometry_type;
use std::io;

// Where the map is: how deep, and in a geometry of which type.
#[derive(Clone, Copy)]
struct Spot {
    depth: u8,
    inside: u8,
}

// A line that is no geometry of its own is nothing to stand in.
fn inside_of(event: Event, kind: u8, inside: u8) -> u8 {
    if kind == geometry_type::LINE_STRING && !event.tagged {
        inside
    } else {
        kind
    }
}

impl Spot {
    // An end takes no line: the next begin stands less deep.
    fn after(self, event: Event) -> Spot {
        match part_of(event.kind) {
            Part::Begin(kind) => Spot {
                depth: self.depth.saturating_add(1),
                inside: inside_of(event, kind, self.inside),
            },
            Part::End(_) => Spot {
                depth: self.depth.saturating_sub(1),
                inside: self.inside,
            },
            Part::Pair => self,
        }
    }
}

fn write_line<W: io::Write>(out: &mut W, event: Event, spot: Spot) -> io::Result<()> {
    if let Part::End(_) = part_of(event.kind) {
        return Ok(());
    }
    let indent = 2 * usize::from(spot.depth);
    let told = Told {
        event,
        inside: spot.inside,
    };
    writeln!(out, "{:indent$}{told}", "")
}

pub fn write_map<W: io::Write>(out: &mut W, log: &[u8]) -> io::Result<()> {
    let mut spot = Spot {
        depth: 1,
        inside: geometry_type::UNKNOWN,
    };
    for event in log.chunks_exact(EVENT_BYTES).filter_map(heard) {
        write_line(out, event, spot)?;
        spot = spot.after(event);
    }
    Ok(())
}
