// The geometry records that the writer puts down.
ghost use Rattle.std.specs.Prelude.{◌≡◌};
ghost use Rattle.pending.specs.Growth.{part_of, root_over};

use crate::words::{Pending, Words};
use kinds::geometry::{Geometry, Stretch};

// A part's xy list is there even if it is empty; a single end says no more than the list's length.
#[tactic(auto, unfolding(crate::specs::Growth::part_of))]
pub fn part_of(kind: u8, p: Pending) -> Geometry
    ensures { result ≡ part_of kind p }
{
    Geometry {
        kind,
        xy: p.xy.listed(),
        ends: p.ends.shown(Words::OMITTED_ENDS),
        z: p.z.shown(Words::OMITTED),
        m: p.m.shown(Words::OMITTED),
        t: p.t.shown(Words::OMITTED),
        tm: p.tm.shown(Words::OMITTED),
        parts: None,
    }
}

#[tactic(auto, unfolding(crate::specs::Growth::root_over))]
pub fn root_over(kind: u8, count: u32) -> Geometry
    ensures { result ≡ root_over kind count }
{
    Geometry {
        kind,
        xy: None,
        ends: None,
        z: None,
        m: None,
        t: None,
        tm: None,
        parts: Some(Stretch { start: 1, count }),
    }
}
