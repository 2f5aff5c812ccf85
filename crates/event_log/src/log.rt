// A log that is being written: records one after the other, in lent memory.
ghost use Rattle.std.specs.Prelude.{◌≡◌, ◌<◌, ◌≤◌, length};
ghost use Rattle.laws.specs.Script.{Format, one, room_at};
ghost use Rattle.event_log.specs.Pairs.{xy_s};
ghost use Rattle.event_log.specs.Says.{Says, of_events};

use crate::layouts::Events;
use kinds::event::Event;
use kinds::refusal::Refusal;
use kinds::usable;

// What the records of a log are, how wide they are, and how each is laid down.
pub trait Layout {
    type Item: Copy;

    ghost format: { Self → Format Self.Item };

    fn wide(&self) -> usize
        ensures { result ≡ (format self.now).wide };

    fn put(&self, bytes: &mut [u8], item: Self::Item)
        requires { length bytes.old ≡ (format self.now).wide }
        ensures { bytes.new ≡ (format self.now).bytes item };
}

#[derive(Drop)]
pub struct Log<'a, L> {
    bytes: &'a mut [u8],
    pub layout: L,
    count: usize,
}

impl<'a, L: Layout> Log<'a, L> {
    // A log of which so many records are written.
    pub fn continued(bytes: &'a mut [u8], layout: L, count: usize) -> Log<'a, L>
        ensures memory { result.bytes.ghost_name ≡ bytes.entry.ghost_name }
        ensures bytes { result.bytes.now ≡ bytes.old }
        ensures layout { result.layout ≡ layout }
        ensures count { result.count ≡ count }
    {
        Log {
            bytes,
            layout,
            count,
        }
    }

    // A log of no records.
    pub fn new(bytes: &'a mut [u8], layout: L) -> Log<'a, L>
        ensures memory { result.bytes.ghost_name ≡ bytes.entry.ghost_name }
        ensures bytes { result.bytes.now ≡ bytes.old }
        ensures layout { result.layout ≡ layout }
        ensures count { result.count ≡ 0 }
    {
        Log::continued(bytes, layout, 0)
    }

    // How many records it has.
    pub fn count(&self) -> usize
        ensures { result ≡ self.now.count }
    {
        self.count
    }

    // Whether there is room for one more record, so wide.
    fn has_room(&self, wide: usize) -> bool
        requires { 0 < wide }
        ensures { result ≡ room_at wide self.now.bytes.now self.now.count }
    {
        (self.count < usable::LOG_RECORDS) & (self.count < self.bytes.len() / wide)
    }

    // Writes the next record. It stands in the loop that says one record after the other: as a call of its own, LLVM hands it each record
    // through memory.
    #[inline(always)]
    pub fn say(&mut self, item: L::Item) -> Result<(), Refusal>
        ensures { Says L.format (one item) self.old self.new result }
    {
        let wide = self.layout.wide();
        if !self.has_room(wide) {
            return Err(Refusal::LogFull);
        }
        let from = wide * self.count;
        let end = from + wide;
        self.layout.put(&mut self.bytes[from..end], item);
        self.count += 1;
        Ok(())
    }
}

impl<'a> Log<'a, Events> {
    // Says the pairs of a list, numbered from 0. Meanwhile the log stands in a value of its own, so that the loop has its count in a register.
    pub fn say_pairs(&mut self, words: &[u64]) -> Result<(), Refusal>
        requires { length words.now ≤ 131072 }
        ensures { Says of_events (xy_s words.now 0 0) self.old self.new result }
    {
        let mut log = Log {
            bytes: &mut *self.bytes,
            layout: self.layout,
            count: self.count,
        };
        let said = say_each(words, &mut log);
        self.count = log.count;
        said
    }
}

fn say_each(words: &[u64], log: &mut Log<Events>) -> Result<(), Refusal>
    requires { length words.now ≤ 131072 }
    ensures { Says of_events (xy_s words.now 0 0) log.old log.new result }
{
    for i in 0..words.len() / 2 {
        log.say(Event::xy(words[2 * i], words[2 * i + 1], i as u32))?;
    }
    if words.len() % 2 != 0 {
        return Err(Refusal::PastList);
    }
    Ok(())
}
