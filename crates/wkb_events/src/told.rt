// What a record of the list is to the machine: a pair, a begin, an end, or an event that refuses the list.
ghost use Rattle.std.specs.Prelude.{◌≡◌, eqb, length};
ghost use Rattle.wkb_events.specs.Told.{SortedOf, ToldOf};

use kinds::event::Event;
use kinds::refusal::Refusal;
use nesting::GeometryType;

#[derive(Clone, Copy, Debug, PartialEq, Eq)]
pub enum Told {
    Pair {
        idx: u32,
    },
    Begin {
        kind: GeometryType,
        tagged: bool,
        size: u32,
        idx: u32,
    },
    End {
        kind: GeometryType,
        tagged: bool,
        idx: u32,
    },
    // An event that no geometry has, or an event of another feature.
    Strange,
}

// An event by its kind, pairs first, since they are the commonest. `own`: it is of the feature in hand.
fn sorted(own: bool, e: Event) -> Told
    ensures { SortedOf own e result }
{
    if !own {
        return Told::Strange;
    }
    if e.kind == Event::XY {
        return Told::Pair { idx: e.idx };
    }
    if let Some(kind) = GeometryType::of(e.kind) {
        return Told::Begin {
            kind,
            tagged: e.tagged,
            size: e.size,
            idx: e.idx,
        };
    }
    if let Some(kind) = GeometryType::of(e.kind.saturating_sub(Event::END)) {
        return Told::End {
            kind,
            tagged: e.tagged,
            idx: e.idx,
        };
    }
    Told::Strange
}

// A record, where the list is of this feature. Refused: 11.
pub fn hear(bytes: &[u8], feature: u32) -> Result<Told, Refusal>
    requires { length bytes.now ≡ 64 }
    ensures { ToldOf bytes.now feature result }
{
    if !event_log::is_event(bytes) {
        return Err(Refusal::Malformed);
    }
    let own = event_log::feature_in(bytes) == feature;
    Ok(sorted(own, event_log::event_in(bytes)))
}
