// The polygon of a record that has an xy list and no other, of which no z, m, t or tm is read: the common part. Its pairs
// are said alone, which asks nothing of the other lists at any of them.
#![tactic(auto)]

ghost use Rattle.std.specs.Prelude.{◌≡◌, false, []};
ghost use Rattle.event_log.specs.Says.{Says, of_events};
ghost use Rattle.lines.specs.Lines.{flat_s, stretches_s};
ghost use Rattle.lone_ring.specs.Lone.{lone_s, lone_coords};

mod ring;

use coords::Head;
use event_log::EventLog;
use kinds::geometry_type::GeometryType;
use kinds::refusal::Refusal;
pub use ring::Ring;

fn read_lone_pairs(ring: Ring, log: &mut EventLog) -> Result<(), Refusal>
    ensures { Says of_events (lone_s ring.entry.xy.now 0) log.old log.new result }
{
    log.say_pairs(ring.xy)
}

// The whole list as one line.
fn read_lone_line(ring: Ring, log: &mut EventLog) -> Result<(), Refusal>
    ensures { Says of_events (flat_s (lone_coords ring.entry.xy.now) 2 false 0) log.old log.new result }
{
    let head = Head {
        kind: GeometryType::LineString.number(),
        tagged: false,
        idx: 0,
    };
    log.say(head.begin((ring.xy.len() / 2) as u32))?;
    read_lone_pairs(ring, log)?;
    log.say(head.end())
}

// An untagged polygon whose one ring is the whole list.
pub fn read_lone_ring(ring: Ring, idx: u32, log: &mut EventLog) -> Result<(), Refusal>
    ensures { Says of_events (stretches_s 3 false idx (lone_coords ring.entry.xy.now) []) log.old log.new result }
{
    let head = Head {
        kind: GeometryType::Polygon.number(),
        tagged: false,
        idx,
    };
    log.say(head.begin(1))?;
    read_lone_line(ring, log)?;
    log.say(head.end())
}
