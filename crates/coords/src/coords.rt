// The coordinate walk over a stretch of the xy list.
ghost use Rattle.std.specs.Prelude.{◌≤◌, length};
ghost use Rattle.laws.specs.Framed.{framed};
ghost use Rattle.laws.specs.Script.{one, ◌⨟◌};
ghost use Rattle.kinds.specs.Event.{begin_e, end_e};
ghost use Rattle.event_log.specs.Says.{Says, of_events};
ghost use Rattle.coords.specs.Views.{coords_in, pairs_in, window_s, Numbered};

use crate::answer::Answer;
use crate::head::Head;
use crate::lists::{Lists, Window};
use crate::pairs::read_pair;
use event_log::EventLog;
use kinds::event::Event;
use kinds::refusal::Refusal;

// Pairs with what stands beside them.
fn read_many(lists: &Lists, words: &[u64], from: u32, log: &mut EventLog) -> Result<(), Refusal>
    requires { length words.now ≤ 131072 }
    ensures { Says of_events (pairs_in (coords_in lists.now) from words.now) log.old log.new result }
{
    let from = from as usize;
    for i in 0..words.len() / 2 {
        let e = read_pair(lists, words[2 * i], words[2 * i + 1], from + i, i as u32)?;
        log.say(e)?;
    }
    if words.len() % 2 != 0 {
        return Err(Refusal::PastList);
    }
    Ok(())
}

// Where no flag is set, pairs alone are said, which asks nothing of the other lists at any of them.
fn read_coords(lists: &Lists, words: &[u64], from: u32, log: &mut EventLog) -> Result<(), Refusal>
    requires { length words.now ≤ 131072 }
    ensures { Says of_events (pairs_in (coords_in lists.now) from words.now) log.old log.new result }
{
    if lists.many {
        return read_many(lists, words, from, log);
    }
    log.say_pairs(words)
}

// A begin, and pairs.
fn read_begun(
    lists: &Lists,
    words: &[u64],
    from: u32,
    begin: Event,
    log: &mut EventLog,
) -> Result<(), Refusal>
    requires { length words.now ≤ 131072 }
    ensures { Says of_events (one begin ⨟ pairs_in (coords_in lists.now) from words.now) log.old log.new result }
{
    log.say(begin)?;
    read_coords(lists, words, from, log)
}

// A begin, the pairs of a window, and an end where nothing else stands after them.
pub fn read_window<A: Answer>(
    lists: &Lists,
    w: Window<A>,
    size: u32,
    head: Head,
    log: &mut EventLog,
) -> A
    requires { length w.words.now ≤ 131072 }
    ensures { Numbered (framed (begin_e head.kind head.tagged size head.idx) (window_s A.number (coords_in lists.now) w.entry) (end_e head.kind head.tagged head.idx)) log.old log.new (A.number result) }
{
    if let Err(refusal) = read_begun(lists, w.words, w.from, head.begin(size), log) {
        return A::of(Err(refusal));
    }
    if !w.last.is_done() {
        return w.last;
    }
    A::of(log.say(head.end()))
}
