// The pairs behind a begin. They are the commonest events by far, so that each of them is one test in a row of its own, and a pass looks at
// the event behind them next.
ghost use Rattle.std.specs.Prelude.{◌/◌, ◌≤◌, length};
ghost use Rattle.wkb_judge.specs.Inside.{Inside};

use event_log::EVENT_BYTES;
use nesting::{Frame, Kind};

// How many of the records from one on are the pairs, from the first on, that a frame takes which has none yet.
pub fn pairs_inside<K: Kind>(events: &[u8], from: usize, feature: u32, frame: Frame<K>) -> u32
    requires { from ≤ length events.now / 64 }
    ensures { Inside K.numbered events.now from feature frame result }
{
    if !frame.takes_pair(0) {
        return 0;
    }
    let left = events.len() / EVENT_BYTES - from;
    let last = left.min(frame.size as usize) as u32;
    for idx in 0..last {
        let begin = EVENT_BYTES * (from + idx as usize);
        let end = begin + EVENT_BYTES;
        if !event_log::is_pair(&events[begin..end], feature, idx) {
            return idx;
        }
    }
    last
}
