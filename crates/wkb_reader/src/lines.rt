// What has no head of its own: pairs, and rings, lines and polygons behind theirs.
ghost use Rattle.wkb_reader.specs.Reading.{pair_r, line_r, polygon_r, point_r};
ghost use Rattle.wkb_reader.specs.Onward.{Leads};
ghost use Rattle.std.specs.Prelude.{false};

use crate::group::{Group, Things, read_group};
use crate::input::Input;
use event_log::EventLog;
use kinds::event::Event;
use kinds::geometry_type;
use kinds::refusal::Refusal;
use wkb::Order;

// The pairs of a line.
#[derive(Clone, Copy)]
pub struct Pairs {
    pub order: Order,
}

// The rings of a polygon: untagged lines.
#[derive(Clone, Copy)]
pub struct Rings {
    pub order: Order,
}

impl Things for Pairs {
    ghost thing = { λ p. pair_r p.order };

    #[inline(always)]
    fn read(&self, idx: u32, input: &mut Input, log: &mut EventLog) -> Result<(), Refusal> {
        let pair = input.pair(self.order)?;
        log.say(Event::xy(pair.x, pair.y, idx))
    }
}

impl Things for Rings {
    ghost thing = { λ r. line_r r.order false };

    fn read(&self, idx: u32, input: &mut Input, log: &mut EventLog) -> Result<(), Refusal> {
        read_line(self.order, false, idx, input, log)
    }
}

pub fn read_line(
    order: Order,
    tagged: bool,
    idx: u32,
    input: &mut Input,
    log: &mut EventLog,
) -> Result<(), Refusal>
    ensures { Leads (line_r order tagged idx) log.old input.old log.new input.new result }
{
    let line = Group {
        order,
        kind: geometry_type::LINE_STRING,
        tagged,
        idx,
    };
    read_group(&Pairs { order }, line, input, log)
}

pub fn read_polygon(
    order: Order,
    tagged: bool,
    idx: u32,
    input: &mut Input,
    log: &mut EventLog,
) -> Result<(), Refusal>
    ensures { Leads (polygon_r order tagged idx) log.old input.old log.new input.new result }
{
    let polygon = Group {
        order,
        kind: geometry_type::POLYGON,
        tagged,
        idx,
    };
    read_group(&Rings { order }, polygon, input, log)
}

// A Point's begin is said before its x is looked at.
pub fn read_point(
    order: Order,
    idx: u32,
    input: &mut Input,
    log: &mut EventLog,
) -> Result<(), Refusal>
    ensures { Leads (point_r order idx) log.old input.old log.new input.new result }
{
    log.say(Event::begin(geometry_type::POINT, false, 0, idx))?;
    Pairs { order }.read(0, input, log)?;
    log.say(Event::end(geometry_type::POINT, false, idx))
}
