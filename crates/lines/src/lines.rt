// Lines of a record: a stretch from each end to the next, or the whole list as one; a Polygon and a MultiLineString of them.
ghost use Rattle.std.specs.Prelude.{◌≡◌, cond, not, ◌&&◌, leb, length, is_some};
ghost use Rattle.event_log.specs.Says.{Says, of_events};
ghost use Rattle.coords.specs.Views.{coords_in};
ghost use Rattle.lines.specs.Lines.{bad_end, stretches, stretch_s, lines_s, flat_s, rings_s, stretches_s, multi_line_s};

use coords::{Head, Lists, Window, between, read_window};
use event_log::EventLog;
use kinds::geometry_type::GeometryType;
use kinds::refusal::Refusal;

fn bad_end(before: u32, end: u32) -> bool
    ensures { result ≡ bad_end before end }
{
    (end < before) | (2147483648 <= end)
}

// How many stretches a record's ends make.
pub fn stretches(lists: &Lists) -> u32
    ensures { result ≡ stretches lists.now.ends.now }
{
    let ends = lists.ends.len();
    if ends <= 1 { 1 } else { ends as u32 }
}

// Whether a MultiLineString or a Triangle has nothing to say: no list to be its one stretch.
pub fn nothing_there(lists: &Lists) -> bool
    ensures { result ≡ (not (is_some lists.now.xy) && leb (length lists.now.ends.now) 1) }
{
    lists.xy.is_none() & (lists.ends.len() <= 1)
}

// The line from pair `before` to pair `end`.
pub fn read_multilinestring_part(
    lists: &Lists,
    before: u32,
    end: u32,
    idx: u32,
    log: &mut EventLog,
) -> Result<(), Refusal>
    ensures { Says of_events (stretch_s (coords_in lists.now) before end idx) log.old log.new result }
{
    if bad_end(before, end) {
        return Err(Refusal::BadEnd);
    }
    let line = Head {
        kind: GeometryType::LineString.number(),
        tagged: false,
        idx,
    };
    read_window(
        lists,
        between(lists.xy, before, end),
        end - before,
        line,
        log,
    )
}

fn read_lines(lists: &Lists, log: &mut EventLog) -> Result<(), Refusal>
    ensures { Says of_events (lines_s (coords_in lists.now) lists.now.ends.now 0 0) log.old log.new result }
{
    let ends = lists.ends;
    let mut before: u32 = 0;
    for (i, end) in ends.iter().enumerate() {
        read_multilinestring_part(lists, before, *end, i as u32, log)?;
        before = *end;
    }
    Ok(())
}

// The whole list as one line: a LineString, a MultiPoint, a CircularString, a ring.
pub fn read_line(lists: &Lists, head: Head, log: &mut EventLog) -> Result<(), Refusal>
    ensures { Says of_events (flat_s (coords_in lists.now) head.kind head.tagged head.idx) log.old log.new result }
{
    let Some(words) = lists.xy else {
        return Err(Refusal::XyAbsent);
    };
    let whole = Window {
        words,
        from: 0,
        last: Ok(()),
    };
    read_window(lists, whole, (words.len() / 2) as u32, head, log)
}

// The lines of a Polygon or a MultiLineString: with at most one end the whole list is one.
fn read_rings(lists: &Lists, log: &mut EventLog) -> Result<(), Refusal>
    ensures { Says of_events (rings_s (coords_in lists.now) lists.now.ends.now) log.old log.new result }
{
    if lists.ends.len() <= 1 {
        let line = Head {
            kind: GeometryType::LineString.number(),
            tagged: false,
            idx: 0,
        };
        read_line(lists, line, log)
    } else {
        read_lines(lists, log)
    }
}

// read_polygon, and whatever else is a begin, lines and an end.
pub fn read_stretches(lists: &Lists, head: Head, log: &mut EventLog) -> Result<(), Refusal>
    ensures { Says of_events (stretches_s head.kind head.tagged head.idx (coords_in lists.now) lists.now.ends.now) log.old log.new result }
{
    log.say(head.begin(stretches(lists)))?;
    read_rings(lists, log)?;
    log.say(head.end())
}

pub fn read_multilinestring(lists: &Lists, idx: u32, log: &mut EventLog) -> Result<(), Refusal>
    ensures { Says of_events (multi_line_s (coords_in lists.now) lists.now.ends.now idx) log.old log.new result }
{
    if nothing_there(lists) {
        return Ok(());
    }
    let head = Head {
        kind: GeometryType::MultiLineString.number(),
        tagged: false,
        idx,
    };
    read_stretches(lists, head, log)
}
