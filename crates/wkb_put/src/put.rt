// The pass that lays the bytes down, once every event was judged good: each adds what its own fields and what it stands in say.
ghost use Rattle.std.specs.Prelude.{◌≡◌, ◌+◌, ◌*◌, ◌/◌, ◌≤◌, length};
ghost use Rattle.std.proofs.Math.Option.{some};
ghost use Rattle.std.proofs.lemmas.List.Edits.{sets};
ghost use Rattle.kinds.specs.Event.{WellFormed};
ghost use Rattle.kinds.specs.declared.event.Event.{Event};
ghost use Rattle.event_log.specs.Log.{heard, record_of};
ghost use Rattle.wkb_written.specs.Writing.{events_in};
ghost use Rattle.wkb_put.specs.Output.{Laid};
ghost use Rattle.wkb_put.specs.Put.{laid_of, later_than, heard_events, spelled_of, events_from, HeardFrom, run_bytes, RunLaid};

use crate::output::Output;
use event_log::EVENT_BYTES;
use kinds::event::Event;
use nesting::GeometryType;
use wkb_written::Around;

// Lays an event down: what stands around the next. An end, and an event that no geometry has, adds nothing.
fn put_event(output: &mut Output, around: Around, e: Event) -> Around
    requires { output.old.at + length (laid_of around e) ≤ length output.old.bytes.now }
    ensures laid { Laid output.old output.new (laid_of around e) }
    ensures later { result ≡ later_than around e }
{
    if let Some(kind) = GeometryType::of(e.kind) {
        output.begin(around, kind, e.tagged, e.size);
        return around.behind_begin(kind);
    }
    if e.kind != Event::XY {
        return around;
    }
    if around.points {
        output.point(e.x, e.y);
        return around;
    }
    output.pair(e.x, e.y);
    around
}

// The event of a record that is heard as one.
fn event_at(events: &[u8], i: usize) -> Event
    requires { 64 * i + 64 ≤ length events.now }
    ensures { (e : Event) → heard (record_of events.now i) ≡ WellFormed e → result ≡ e }
{
    let from = EVENT_BYTES * i;
    let end = from + EVENT_BYTES;
    event_log::event_in(&events[from..end])
}

// Lays the pairs down that the records begin with from one on, where they are no Points: the record behind them. Pairs are the commonest
// events by far, so that each is two words read and two words written.
fn put_pairs(events: &[u8], from: usize, output: &mut Output) -> usize
    requires { (from ≤ length events.now / 64) × HeardFrom events.now from
        × (output.old.at + length (run_bytes (events_from events.now from)) ≤ length output.old.bytes.now) }
    ensures { RunLaid events.now from output.old output.new result }
{
    let records = events.len() / EVENT_BYTES;
    for next in from..records {
        let e = event_at(events, next);
        if e.kind != Event::XY {
            return next;
        }
        output.pair(e.x, e.y);
    }
    records
}

// Lays down all that a list of events is spelled as, where none of its records is malformed and there is room.
pub fn put_all(events: &[u8], out: &mut [u8])
    requires { (events_in events.now ≡ some (heard_events events.now)) × (length (spelled_of events.now) ≤ length out.old) }
    ensures { out.new ≡ sets out.old 0 (spelled_of events.now) }
{
    let records = events.len() / EVENT_BYTES;
    let mut output = Output::new(out);
    let mut around = Around::OUTERMOST;
    let mut next = 0;
    // No `for`, since a run of pairs is gone past at once.
    while next < records {
        let e = event_at(events, next);
        around = put_event(&mut output, around, e);
        next += 1;
        if around.points {
            continue;
        }
        next = put_pairs(events, next, &mut output);
    }
}
