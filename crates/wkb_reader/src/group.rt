// What has a count: so many things, between a begin and an end.
ghost use Rattle.std.specs.Prelude.{◌≡◌, ℕ, ◌<◌};
ghost use Rattle.kinds.specs.Event.{begin_e, end_e};
ghost use Rattle.wkb_reader.specs.Reading.{Reads, group_r};
ghost use Rattle.wkb_reader.specs.Onward.{Leads};

use crate::input::Input;
use event_log::EventLog;
use kinds::event::Event;
use kinds::refusal::Refusal;
use wkb::Order;

// A geometry that has a count: the order of its bytes, its type, whether it is tagged, and its number in what it is a part of.
#[derive(Clone, Copy)]
pub struct Group {
    pub order: Order,
    pub kind: u8,
    pub tagged: bool,
    pub idx: u32,
    pub ghost is_type: { kind < 32 },
}

impl Group {
    pub fn begin(self, size: u32) -> Event
        ensures { result ≡ begin_e self.kind self.tagged size self.idx }
    {
        Event::begin(self.kind, self.tagged, size, self.idx)
    }

    pub fn end(self) -> Event
        ensures { result ≡ end_e self.kind self.tagged self.idx }
    {
        Event::end(self.kind, self.tagged, self.idx)
    }
}

// What a group may be of: each thing is read by its number.
pub trait Things {
    ghost thing: { Self → ℕ → Reads };

    fn read(&self, idx: u32, input: &mut Input, log: &mut EventLog) -> Result<(), Refusal>
        ensures { Leads (thing self.now idx) log.old input.old log.new input.new result };
}

// A count, a begin, so many things, an end.
pub fn read_group<T: Things>(
    things: &T,
    group: Group,
    input: &mut Input,
    log: &mut EventLog,
) -> Result<(), Refusal>
    ensures { Leads (group_r group.order group.kind group.tagged (T.thing things.now) group.idx) log.old input.old log.new input.new result }
{
    let size = input.u32(group.order)?;
    log.say(group.begin(size))?;
    // What is left stands in a value of its own meanwhile, which a loop over pairs keeps in registers.
    let mut left = *input;
    for idx in 0..size {
        things.read(idx, &mut left, log)?;
    }
    *input = left;
    log.say(group.end())
}
