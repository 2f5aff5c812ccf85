// Whether a list's events are those of a geometry, at whatever depth. A pass keeps the frames of some heights only, so there are as many
// passes as the depth needs: one, but for lists that go deeper than the window is high.
ghost use Rattle.std.specs.Prelude.{◌≡◌, ◌%◌, ◌<◌, length};
ghost use Rattle.wkb_judge.specs.Passing.{SlotOf, LaterOf, PassOf, JudgedOf};

use crate::pairs::pairs_inside;
use event_log::EVENT_BYTES;
use kinds::refusal::Refusal;
use nesting::{Frame, GeometryType};
use wkb_events::{Told, WKB, Walk, hear};

// How many heights a pass keeps frames of.
const WINDOW: usize = 256;

// One slot more, for what lies outside the window: it is written, and nothing is judged by it. So a slot is a number and no Option, which
// would need a second way at each store and each load.
const SLOTS: usize = 257;

// What a geometry's list comes to. `deep`: some geometry stands deeper than level 16. `length`: so many bytes of well-known binary.
#[derive(Clone, Copy, Debug, PartialEq, Eq)]
pub struct Nested {
    pub deep: bool,
    pub length: usize,
}

// Where a frame at a height is kept in a pass whose window starts at `low`.
fn slot(low: usize, height: usize) -> usize
    ensures { SlotOf low height result }
{
    if height < low {
        return WINDOW;
    }
    (height - low).min(WINDOW)
}

// What a list with a fault is refused with: it is malformed all the same if a record from `from` on is.
fn fault(events: &[u8], from: usize) -> Refusal
    requires { length events.now % 64 ≡ 0 }
    ensures { LaterOf events.now from result }
{
    for i in from..events.len() / EVENT_BYTES {
        let begin = EVENT_BYTES * i;
        let end = begin + EVENT_BYTES;
        if !event_log::is_event(&events[begin..end]) {
            return Refusal::Malformed;
        }
    }
    Refusal::BadlyNested
}

// One pass, that judges what stands at the heights from `low` on, as many as the window is high.
fn judge(events: &[u8], low: usize) -> Result<Walk, Refusal>
    requires { (0 < length events.now) × (length events.now % 64 ≡ 0) }
    ensures { PassOf events.now low result }
{
    let whole = events.len() / EVENT_BYTES;
    let feature = event_log::feature_in(&events[0..EVENT_BYTES]);
    let outside = Frame::outside();
    let mut top: Frame<GeometryType> = outside;
    // Any frame would do: a slot is read only where one was kept in it, or where nothing is judged by it.
    let mut stored = [outside; SLOTS];
    let mut walk = Walk::start();
    let mut i = 0;
    // No `for`, since the pairs behind a begin are gone past at once.
    while i < whole {
        let begin = EVENT_BYTES * i;
        let end = begin + EVENT_BYTES;
        let told = hear(&events[begin..end], feature)?;
        let height = walk.height;
        let k = slot(low, height);
        i += 1;
        match told {
            Told::Pair { idx } => {
                if (k < WINDOW) & !top.takes_pair(idx) {
                    return Err(fault(events, i));
                }
                top = top.one_more();
                walk = walk.pair();
                continue;
            }
            Told::Begin {
                kind,
                tagged,
                size,
                idx,
            } => {
                if (k < WINDOW) & !top.takes_begin(kind, tagged, size, idx, WKB) {
                    return Err(fault(events, i));
                }
                stored[k] = top;
                top = Frame::begun(kind, tagged, size, idx);
                walk = walk.begin(kind, tagged, size);
                let pairs = pairs_inside(events, i, feature, top);
                top.done = pairs;
                walk = walk.pairs(pairs);
                i += pairs as usize;
                continue;
            }
            Told::End { kind, tagged, idx } => {
                if (height == 0) | ((k < WINDOW) & !top.takes_end(kind, tagged, idx)) {
                    return Err(fault(events, i));
                }
                let around = stored[slot(low, height - 1)];
                top = around.one_more();
                walk = walk.end();
                continue;
            }
            Told::Strange => {
                return Err(fault(events, i));
            }
        }
    }
    if (low == 0) & !((walk.height == 0) & (top.done == 1)) {
        return Err(Refusal::BadlyNested);
    }
    Ok(walk)
}

// The whole answer: a list that is malformed anywhere is so before anything else, and one that has no records is no geometry's. Where the
// first pass finds no fault, those above it judge what stands higher. Refused: 11, 21.
pub fn judge_all(events: &[u8]) -> Result<Nested, Refusal>
    ensures { JudgedOf events.now result }
{
    if events.len() % EVENT_BYTES != 0 {
        return Err(Refusal::Malformed);
    }
    if events.is_empty() {
        return Err(Refusal::BadlyNested);
    }
    let first = judge(events, 0)?;
    for window in 1..first.highest / WINDOW + 1 {
        judge(events, WINDOW * window)?;
    }
    Ok(Nested {
        deep: first.deep,
        length: first.length,
    })
}
