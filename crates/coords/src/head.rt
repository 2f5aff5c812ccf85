// What the begin and the end of a geometry have in common.
ghost use Rattle.std.specs.Prelude.{◌≡◌, ◌<◌};
ghost use Rattle.kinds.specs.Event.{begin_e, end_e};

use kinds::event::Event;

// The number of a geometry's type, whether it is tagged, and its number in what it is a part of.
#[derive(Clone, Copy)]
pub struct Head {
    pub kind: u8,
    pub tagged: bool,
    pub idx: u32,
    // The kind of an end is 32 more.
    pub ghost is_begin: { kind < 32 },
}

impl Head {
    pub fn begin(self, size: u32) -> Event
        ensures { result ≡ begin_e self.kind self.tagged size self.idx }
    {
        Event::begin(self.kind, self.tagged, size, self.idx)
    }

    pub fn end(self) -> Event
        ensures { result ≡ end_e self.kind self.tagged self.idx }
    {
        Event::end(self.kind, self.tagged, self.idx)
    }
}
