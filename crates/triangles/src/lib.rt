// The triangles of a record: one for each of its lines.
#![tactic(auto)]

ghost use Rattle.std.specs.Prelude.{◌≡◌};
ghost use Rattle.event_log.specs.Says.{Says, of_events};
ghost use Rattle.coords.specs.Views.{coords_in};
ghost use Rattle.lines.specs.Lines.{triangle_at, triangles_s, triangle_s, tin_s};

use coords::{Head, Lists};
use event_log::EventLog;
use kinds::geometry_type::GeometryType;
use kinds::refusal::Refusal;

// A triangle whose one line goes from pair `before` to pair `end`.
fn read_triangle_at(
    lists: &Lists,
    tagged: bool,
    before: u32,
    end: u32,
    idx: u32,
    log: &mut EventLog,
) -> Result<(), Refusal>
    ensures { Says of_events (triangle_at (coords_in lists.now) tagged before end idx) log.old log.new result }
{
    let head = Head {
        kind: GeometryType::Triangle.number(),
        tagged,
        idx,
    };
    log.say(head.begin(1))?;
    lines::read_multilinestring_part(lists, before, end, 0, log)?;
    log.say(head.end())
}

fn read_triangles(lists: &Lists, tagged: bool, log: &mut EventLog) -> Result<(), Refusal>
    ensures { Says of_events (triangles_s (coords_in lists.now) lists.now.ends.now tagged 0 0) log.old log.new result }
{
    let ends = lists.ends;
    let mut before: u32 = 0;
    for (i, end) in ends.iter().enumerate() {
        read_triangle_at(lists, tagged, before, *end, i as u32, log)?;
        before = *end;
    }
    Ok(())
}

pub fn read_triangle(
    lists: &Lists,
    tagged: bool,
    idx: u32,
    log: &mut EventLog,
) -> Result<(), Refusal>
    ensures { Says of_events (triangle_s (coords_in lists.now) lists.now.ends.now tagged idx) log.old log.new result }
{
    if lines::nothing_there(lists) {
        return Ok(());
    }
    if lists.ends.len() <= 1 {
        let head = Head {
            kind: GeometryType::Triangle.number(),
            tagged,
            idx,
        };
        lines::read_stretches(lists, head, log)
    } else {
        read_triangles(lists, tagged, log)
    }
}

pub fn read_tin(lists: &Lists, idx: u32, log: &mut EventLog) -> Result<(), Refusal>
    ensures { Says of_events (tin_s (coords_in lists.now) lists.now.ends.now idx) log.old log.new result }
{
    let head = Head {
        kind: GeometryType::Tin.number(),
        tagged: false,
        idx,
    };
    log.say(head.begin(lines::stretches(lists)))?;
    read_triangle(lists, false, 0, log)?;
    log.say(head.end())
}
