// A record's own lists, lent from the pools to the walk that reads them.
ghost use Rattle.std.specs.Prelude.{◌≡◌, ◌+◌, ◌≤◌, length};
ghost use Rattle.kinds.specs.Geometry.{start_of, count_of};
ghost use Rattle.store.specs.Lists.{pools_in, list_of, lists_of};
ghost use Rattle.event_log.specs.Says.{Says, of_events};
ghost use Rattle.coords.specs.Coords.{coords_of};
ghost use Rattle.coords.specs.Views.{list_in, coords_in};
ghost use Rattle.lines.specs.Lines.{or_none};
ghost use Rattle.own_lists.specs.Own.{own_s, InPools, list_at, seen_list};

use coords::{Head, Lists, between, read_window};
use event_log::EventLog;
use kinds::flags::Flags;
use kinds::geometry::{Geometry, Stretch};
use kinds::geometry_type::GeometryType;
use kinds::refusal::Refusal;
use lines::{read_line, read_multilinestring, read_stretches};
use store::Pools;
use triangles::{read_tin, read_triangle};

// How a record's own lists are read: a walk of geometry_reader.rs that looks at no part.
#[derive(Clone, Copy, Debug, PartialEq, Eq)]
pub enum Own {
    Point,
    LineString { tagged: bool },
    MultiPoint,
    CircularString,
    Polygon { tagged: bool },
    MultiLineString,
    Tin,
    Triangle,
}

// A list of a pool that has it.
fn list<T>(pool: &[T], place: Option<Stretch>) -> Option<&[T]>
    requires { start_of place + count_of place ≤ length pool.now }
    ensures { list_in result ≡ list_at pool.now place }
{
    let Some(Stretch { start, count }) = place else {
        return None;
    };
    let start = start as usize;
    let end = start + count as usize;
    Some(&pool[start..end])
}

// Where a list stands, if the flag lets it be seen.
fn seen(flag: bool, place: Option<Stretch>) -> Option<Stretch>
    ensures { result ≡ seen_list flag place }
{
    if flag { place } else { None }
}

// A record's lists, of pools that have them.
fn lists_of<'a>(pools: &Pools<'a>, flags: Flags, g: &Geometry) -> Lists<'a>
    requires { InPools (pools_in pools.now) g.now }
    ensures coords { coords_in result ≡ coords_of flags (lists_of (pools_in pools.now) g.now) }
    ensures ends { result.ends.now ≡ or_none (list_of pools.now.ends.now g.now.ends) }
{
    Lists {
        many: flags.multi(),
        xy: list(pools.xy, g.xy),
        z: list(pools.z, seen(flags.z, g.z)),
        m: list(pools.m, seen(flags.m, g.m)),
        t: list(pools.t, seen(flags.t, g.t)),
        tm: list(pools.tm, seen(flags.tm, g.tm)),
        ends: list(pools.ends, g.ends).unwrap_or(&[]),
    }
}

fn read_lists(lists: &Lists, own: Own, idx: u32, log: &mut EventLog) -> Result<(), Refusal>
    ensures { Says of_events (own_s own (coords_in lists.now) lists.now.ends.now idx) log.old log.new result }
{
    match own {
        Own::Point => {
            let point = Head {
                kind: GeometryType::Point.number(),
                tagged: false,
                idx,
            };
            read_window(lists, between(lists.xy, 0, 1), 0, point, log)
        }
        Own::LineString { tagged } => {
            let line = Head {
                kind: GeometryType::LineString.number(),
                tagged,
                idx,
            };
            read_line(lists, line, log)
        }
        Own::MultiPoint => {
            let points = Head {
                kind: GeometryType::MultiPoint.number(),
                tagged: false,
                idx,
            };
            read_line(lists, points, log)
        }
        Own::CircularString => {
            let line = Head {
                kind: GeometryType::CircularString.number(),
                tagged: false,
                idx,
            };
            read_line(lists, line, log)
        }
        Own::Polygon { tagged } => {
            let polygon = Head {
                kind: GeometryType::Polygon.number(),
                tagged,
                idx,
            };
            read_stretches(lists, polygon, log)
        }
        Own::MultiLineString => read_multilinestring(lists, idx, log),
        Own::Tin => read_tin(lists, idx, log),
        Own::Triangle => read_triangle(lists, true, idx, log),
    }
}

// A record's own lists, of pools that have them.
pub fn read_own(
    pools: &Pools,
    flags: Flags,
    g: &Geometry,
    own: Own,
    idx: u32,
    log: &mut EventLog,
) -> Result<(), Refusal>
    requires { InPools (pools_in pools.now) g.now }
    ensures { let P = pools_in pools.now in
        Says of_events (own_s own (coords_of flags (lists_of P g.now)) (or_none (list_of P.ends g.now.ends)) idx) log.old log.new result }
{
    read_lists(&lists_of(pools, flags, g), own, idx, log)
}
