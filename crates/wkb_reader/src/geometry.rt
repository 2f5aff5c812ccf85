// The recursion: a geometry by its head, and the members of a collection.
ghost use Rattle.std.specs.Prelude.{false, ◌≤◌, ◌<◌};
ghost use Rattle.event_log.specs.Says.{Says, of_events};
ghost use Rattle.wkb_reader.specs.Reading.{group_r, simple_r, geometry_r, reading_r};
ghost use Rattle.wkb_reader.specs.Onward.{Leads};

use crate::group::Group;
use crate::head::read_head;
use crate::input::Input;
use crate::lines::{read_line, read_point, read_polygon};
use crate::members::read_multi;
use event_log::EventLog;
use kinds::refusal::Refusal;
use kinds::{geometry_type, usable};
use wkb::Order;

// The types of OGC that have two dimensions.
const LEAST: u32 = geometry_type::POINT as u32;

const MOST: u32 = geometry_type::GEOMETRY_COLLECTION as u32;

// A geometry of the types 1 to 6, with so many levels left below it.
fn read_simple(
    order: Order,
    kind: u8,
    left: u8,
    idx: u32,
    input: &mut Input,
    log: &mut EventLog,
) -> Result<(), Refusal>
    requires { (1 ≤ kind) × (kind < 7) }
    ensures { Leads (simple_r left order kind idx) log.old input.old log.new input.new result }
{
    match kind {
        geometry_type::POINT => read_point(order, idx, input, log),
        geometry_type::LINE_STRING => read_line(order, true, idx, input, log),
        geometry_type::POLYGON => read_polygon(order, true, idx, input, log),
        _ => read_multi(order, kind, left, idx, input, log),
    }
}

// A geometry, with so many levels left, its own among them.
#[cycle(geometry)]
fn read_geometry(left: u8, idx: u32, input: &mut Input, log: &mut EventLog) -> Result<(), Refusal>
    ensures { Leads (geometry_r left idx) log.old input.old log.new input.new result }
{
    let head = read_head(input, LEAST, MOST)?;
    if left == 0 {
        return Err(Refusal::TooDeep);
    }
    if head.kind == MOST {
        read_collection(head.order, left - 1, idx, input, log)
    } else {
        read_simple(head.order, head.kind as u8, left - 1, idx, input, log)
    }
}

// A GeometryCollection behind its head, with so many levels left below it. Its members are geometries, so that what `read_group` does stands
// here in the cycle.
#[cycle(geometry)]
fn read_collection(
    order: Order,
    left: u8,
    idx: u32,
    input: &mut Input,
    log: &mut EventLog,
) -> Result<(), Refusal>
    ensures { Leads (group_r order 7 false (geometry_r left) idx) log.old input.old log.new input.new result }
{
    let group = Group {
        order,
        kind: geometry_type::GEOMETRY_COLLECTION,
        tagged: false,
        idx,
    };
    let size = input.u32(order)?;
    log.say(group.begin(size))?;
    for member in 0..size {
        read_geometry(left, member, input, log)?;
    }
    log.say(group.end())
}

// Well-known binary as events in a log. Refused: at each field 18, then 19; 13 behind a member's type; 9 at each record; 20 at the end.
pub fn read_wkb(bytes: &[u8], log: &mut EventLog) -> Result<(), Refusal>
    ensures { Says of_events (reading_r bytes.now) log.old log.new result }
{
    let mut input = Input { left: bytes };
    read_geometry(usable::LEVELS, 0, &mut input, log)?;
    if input.left.len() != 0 {
        return Err(Refusal::WkbLeftOver);
    }
    Ok(())
}
