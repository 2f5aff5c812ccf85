// Every call that a machine builder links, on plain numbers and lent memory. `bintolage_c` gives them their C names.
#![tactic(auto)]

ghost use Rattle.std.specs.Prelude.{◌≡◌, length};
ghost use Rattle.laws.specs.Cut.{Said};
ghost use Rattle.store.specs.Lists.{pools_of, record_with};
ghost use Rattle.event_log.specs.Log.{events as event_records};
ghost use Rattle.property_value.specs.Value.{placed};
ghost use Rattle.property_reader.specs.Reading.{reading, bad_in, stopped as stopping};
ghost use Rattle.event_log.specs.Values.{values};
ghost use Rattle.property_writer.specs.Writing.{bytes_after};
ghost use Rattle.reader.specs.Reading.{read_s};
ghost use Rattle.wkb_reader.specs.Reading.{reading_r};
ghost use Rattle.wkb_written.specs.Writing.{writing, Did};
ghost use Rattle.record_box.specs.Boxed.{box_of};
ghost use Rattle.writing.specs.State.{mem_of};
ghost use Rattle.writing.specs.Calls.{started, event_call, finish_call, next_call};
ghost use Rattle.runs.specs.Events.{events_call};
ghost use Rattle.writer.specs.Property.{property_call, property_place};
ghost use Rattle.kinds.specs.Flags.{flags_of};
ghost use Rattle.bbox.specs.Edges.{edges_of};
ghost use Rattle.as_words.specs.Words.{state_of, words_of, words_after};
ghost use Rattle.bintolage.specs.Calls.{yes, one, kept, kept_of, taken as taken_with, taken_of};

use as_words::state::{StateWords, keep, keep_all, keep_numbered, state_of, words_of};
use bbox::{Box, edges_of};
use event_log::{Events, Log};
use kinds::event::Xy;
use kinds::flags::Flags;
use kinds::refusal::answer_number;
use pools::PoolsMut;
use property_writer::Property;
use store::{Pools, Store};

// A writer's first state. 0 is no, all else yes.
pub fn bintolage_start(state: &mut StateWords, declared: u8, detect: u8, promote: u8)
    ensures { state.new ≡ words_of (started declared (yes detect) (yes promote)) }
{
    *state = words_of(writer::start(declared, detect != 0, promote != 0));
}

// Takes an event's record. Refused: 11, 15, 17, 5, 12.
pub fn bintolage_event(
    state: &mut StateWords,
    event: &[u8],
    table: &mut [u8],
    xy: &mut [u64],
    ends: &mut [u32],
    z: &mut [u64],
    m: &mut [u64],
    t: &mut [u64],
    tm: &mut [u64],
) -> u8
    ensures { let before = mem_of table.old xy.old ends.old z.old m.old t.old tm.old in
        let after = mem_of table.new xy.new ends.new z.new m.new t.new tm.new in
        let words = state.old in
        kept result state.new after ≡ kept_of words (event_call (state_of words) before event.now) }
{
    // A pair by itself is the commonest call, and with a keep of its own the state's words are packed in registers.
    if let Some(Xy { x, y }) = event_log::hear_bare(event) {
        let n = event_log::feature_in(event);
        let wrote = writer::pair(state_of(state), n, x, y, table, xy, ends, z, m, t, tm);
        return keep(state, wrote);
    }
    let mut pools = PoolsMut {
        xy,
        ends,
        z,
        m,
        t,
        tm,
    };
    let taken = writer::event(state_of(state), event, table, &mut pools);
    keep(state, taken)
}

// Takes events' records one after the other, until one is refused, and says how many. Refused: 11, 15, 17, 5, 12.
pub fn bintolage_events(
    state: &mut StateWords,
    events: &[u8],
    table: &mut [u8],
    xy: &mut [u64],
    ends: &mut [u32],
    z: &mut [u64],
    m: &mut [u64],
    t: &mut [u64],
    tm: &mut [u64],
    taken: &mut usize,
) -> u8
    ensures { let before = mem_of table.old xy.old ends.old z.old m.old t.old tm.old in
        let after = mem_of table.new xy.new ends.new z.new m.new t.new tm.new in
        let words = state.old in
        taken_with result taken.new state.new after ≡ taken_of words (events_call (state_of words) before events.now) }
{
    let mut pools = PoolsMut {
        xy,
        ends,
        z,
        m,
        t,
        tm,
    };
    let took = many::events(state_of(state), events, table, &mut pools);
    keep_all(state, taken, took)
}

// Lays a value down after the feature's other property bytes. With 6 the place is that of the text's first bad byte, counted from the
// text's first; with any other answer it is 0. Refused: 15, 16, 11, 6, 12.
pub fn bintolage_property(
    state: &mut StateWords,
    column: u32,
    column_type: u8,
    bits: u64,
    text: &[u8],
    buffer: &mut [u8],
    place: &mut usize,
) -> u8
    ensures answer { let call = property_call (state_of state.old) column column_type bits text.now buffer.old in
        result ≡ call.number }
    ensures words { let call = property_call (state_of state.old) column column_type bits text.now buffer.old in
        state.new ≡ words_after state.old call }
    ensures bytes { let s = state_of state.old in
        buffer.new ≡ bytes_after s.waiting s.properties column column_type bits text.now buffer.old }
    ensures place { place.new ≡ property_place (state_of state.old) column column_type bits text.now buffer.old }
{
    let property = Property {
        column,
        kind: column_type,
        bits,
        text,
    };
    match writer::property(state_of(state), property, buffer) {
        Ok(after) => {
            *place = 0;
            keep_numbered(state, 0, after)
        }
        Err(refused) => {
            *place = refused.place();
            keep(state, Err(refused.refusal()))
        }
    }
}

// Lays the feature's root down, and has it wait. Refused: 15, 12.
pub fn bintolage_finish(
    state: &mut StateWords,
    table: &mut [u8],
    xy: &[u64],
    ends: &[u32],
    z: &[u64],
    m: &[u64],
    t: &[u64],
    tm: &[u64],
) -> u8
    ensures { let before = mem_of table.old xy.now ends.now z.now m.now t.now tm.now in
        let after = mem_of table.new xy.now ends.now z.now m.now t.now tm.now in
        let words = state.old in
        kept result state.new after ≡ kept_of words (finish_call (state_of words) before) }
{
    let pools = Pools {
        xy,
        ends,
        z,
        m,
        t,
        tm,
    };
    let finished = writer::finish(state_of(state), table, &pools);
    keep(state, finished)
}

// Leaves a finished feature behind, and carries what is still pending into the next. Refused: 15, 12.
pub fn bintolage_next(
    state: &mut StateWords,
    table: &[u8],
    xy: &mut [u64],
    ends: &mut [u32],
    z: &mut [u64],
    m: &mut [u64],
    t: &mut [u64],
    tm: &mut [u64],
) -> u8
    ensures { let before = mem_of table.now xy.old ends.old z.old m.old t.old tm.old in
        let after = mem_of table.now xy.new ends.new z.new m.new t.new tm.new in
        let words = state.old in
        kept result state.new after ≡ kept_of words (next_call (state_of words) before) }
{
    let mut pools = PoolsMut {
        xy,
        ends,
        z,
        m,
        t,
        tm,
    };
    let renewed = writer::next(state_of(state), table, &mut pools);
    keep(state, renewed)
}

// The tree whose root is record 0, as events from the log's start, each under the feature's number, and how many.
pub fn bintolage_read(
    table: &[u8],
    xy: &[u64],
    ends: &[u32],
    z: &[u64],
    m: &[u64],
    t: &[u64],
    tm: &[u64],
    declared: u8,
    flags: u8,
    feature: u32,
    log: &mut [u8],
    count: &mut u32,
) -> u8
    ensures { let P = pools_of xy.now ends.now z.now m.now t.now tm.now in
        let script = read_s (flags_of flags) (record_with table.now P) declared in
        Said (event_records feature) script log.old result count.new log.new }
{
    let pools = Pools {
        xy,
        ends,
        z,
        m,
        t,
        tm,
    };
    let store = Store { table, pools };
    let mut said = Log::new(log, Events { feature });
    let read = reader::read(&store, declared, Flags::of(flags), &mut said);
    *count = said.count() as u32;
    answer_number(&read)
}

// Well-known binary as events from the log's start, each under the feature's number, and how many. Refused: at each field 18, then 19; 13
// behind a member's type; 9 at each record; 20 at the end.
pub fn bintolage_read_wkb(bytes: &[u8], feature: u32, log: &mut [u8], count: &mut u32) -> u8
    ensures { Said (event_records feature) (reading_r bytes.now) log.old result count.new log.new }
{
    let mut said = Log::new(log, Events { feature });
    let read = wkb_reader::read_wkb(bytes, &mut said);
    *count = said.count() as u32;
    answer_number(&read)
}

// Events' records, which are one geometry's, as little-endian well-known binary from the start of `out` on, and how many bytes: none where it
// is refused. Refused, each over the whole list: 11, 21, 13, 12.
pub fn bintolage_write_wkb(events: &[u8], out: &mut [u8], written: &mut usize) -> u8
    ensures { let due = writing events.now (length out.old) in
        Did due out.old result written.new out.new }
{
    let wrote = wkb_writer::write_wkb(events, out);
    *written = wrote.unwrap_or(0);
    answer_number(&wrote)
}

// The values of property bytes, as value records from the log's start, how many, and whether the reading stopped after the named column
// (0 or 1). With 6 the place is that of the refused text's first bad byte, counted from the text's first; with any other answer it is 0.
// Refused: 2, 14, 6, 9.
pub fn bintolage_read_properties(
    bytes: &[u8],
    has_columns: u8,
    columns: &[u8],
    stop: u32,
    log: &mut [u8],
    count: &mut u32,
    stopped: &mut u8,
    place: &mut usize,
) -> u8
    ensures said { let script = reading bytes.now (yes has_columns) columns.now stop in
        Said values script log.old result count.new log.new }
    ensures stop { let script = reading bytes.now (yes has_columns) columns.now stop in
        stopped.new ≡ one (stopping stop script result) }
    ensures place { let bad = bad_in bytes.now (yes has_columns) columns.now stop in
        place.new ≡ placed result bad }
{
    let columns = (has_columns != 0).then_some(columns);
    let read = property_reader::read_properties(bytes, columns, stop, log);
    *count = read.count as u32;
    match read.stopped {
        Ok(early) => {
            *stopped = u8::from(early);
            *place = 0;
            0
        }
        Err(refused) => {
            *stopped = 0;
            *place = refused.place();
            refused.refusal().number()
        }
    }
}

// The box of record n, over its own pairs and then each part's, as bit patterns. Refused: 13, 10, with the beginning box.
pub fn bintolage_box(
    table: &[u8],
    xy: &[u64],
    ends: &[u32],
    z: &[u64],
    m: &[u64],
    t: &[u64],
    tm: &[u64],
    n: u32,
    edges: &mut [u64; 4],
) -> u8
    ensures { let P = pools_of xy.now ends.now z.now m.now t.now tm.now in
        let boxed = box_of (record_with table.now P) n in
        (result ≡ boxed.number) × (edges.new ≡ edges_of boxed.bbox) }
{
    let pools = Pools {
        xy,
        ends,
        z,
        m,
        t,
        tm,
    };
    let boxed = record_box::box_at(&Store { table, pools }, n as usize);
    *edges = edges_of(boxed.unwrap_or(Box::empty()));
    answer_number(&boxed)
}
