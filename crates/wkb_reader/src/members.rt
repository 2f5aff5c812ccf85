// The members of MultiPoint, MultiLineString and MultiPolygon: each has a head of its own, of the Multi's single type.
ghost use Rattle.std.specs.Prelude.{◌≤◌, ◌<◌};
ghost use Rattle.wkb_reader.specs.Reading.{part_r, member_r, multi_r};
ghost use Rattle.wkb_reader.specs.Onward.{Leads};

use crate::group::{Group, Things, read_group};
use crate::head::read_head;
use crate::input::Input;
use crate::lines::{Pairs, read_line, read_polygon};
use event_log::EventLog;
use kinds::geometry_type;
use kinds::refusal::Refusal;
use wkb::Order;

// What stands behind a member's head: a pair, a line or a polygon.
fn read_part(
    order: Order,
    single: u8,
    idx: u32,
    input: &mut Input,
    log: &mut EventLog,
) -> Result<(), Refusal>
    ensures { Leads (part_r order single idx) log.old input.old log.new input.new result }
{
    match single {
        geometry_type::POINT => Pairs { order }.read(idx, input, log),
        geometry_type::LINE_STRING => read_line(order, false, idx, input, log),
        _ => read_polygon(order, false, idx, input, log),
    }
}

// Members of a single type, with so many levels left below the Multi.
#[derive(Clone, Copy)]
struct Members {
    left: u8,
    single: u8,
}

impl Things for Members {
    ghost thing = { λ m. member_r m.left m.single };

    // Refused with 13 behind its type.
    fn read(&self, idx: u32, input: &mut Input, log: &mut EventLog) -> Result<(), Refusal> {
        let head = read_head(input, self.single as u32, self.single as u32)?;
        if self.left == 0 {
            return Err(Refusal::TooDeep);
        }
        read_part(head.order, self.single, idx, input, log)
    }
}

// From a Multi to its single type.
const TO_SINGLE: u8 = 3;

// A Multi behind its head, with so many levels left below it.
pub fn read_multi(
    order: Order,
    kind: u8,
    left: u8,
    idx: u32,
    input: &mut Input,
    log: &mut EventLog,
) -> Result<(), Refusal>
    requires { (3 ≤ kind) × (kind < 32) }
    ensures { Leads (multi_r left order kind idx) log.old input.old log.new input.new result }
{
    let multi = Group {
        order,
        kind,
        tagged: false,
        idx,
    };
    let members = Members {
        left,
        single: kind - TO_SINGLE,
    };
    read_group(&members, multi, input, log)
}
