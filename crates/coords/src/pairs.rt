// A pair, and what stands beside it in z, m, t and tm.
ghost use Rattle.std.specs.Prelude.{◌≡◌, cond, ◌≤◌};
ghost use Rattle.laws.specs.Script.{Script};
ghost use Rattle.kinds.specs.declared.event.Event.{Event as E};
ghost use Rattle.geometries.specs.Coordinate.{is, coord_e};
ghost use Rattle.coords.specs.Coords.{head_of, drop_o, dropped, pair_s};
ghost use Rattle.coords.specs.Views.{list_in, value_in, read_of, coords_in, told};

use crate::lists::Lists;
use kinds::event::Event;
use kinds::flags::Flags;
use kinds::refusal::Refusal;

// What a list that may be absent has at a place.
fn value_at(list: Option<&[u64]>, n: usize) -> Result<Option<u64>, Refusal>
    ensures { result ≡ read_of (head_of (drop_o n (list_in list.entry))) }
{
    let Some(list) = list else {
        return Ok(None);
    };
    if n < list.len() {
        Ok(Some(list[n]))
    } else {
        Err(Refusal::PastList)
    }
}

fn bit_if(value: Option<u64>, bit: u8) -> u8
    ensures { (result ≡ cond (is (value_in value)) bit 0) × (result ≤ bit) }
{
    if value.is_some() { bit } else { 0 }
}

// A pair with the values that stand beside it.
fn coordinate(
    x: u64,
    y: u64,
    z: Option<u64>,
    m: Option<u64>,
    t: Option<u64>,
    tm: Option<u64>,
    idx: u32,
) -> Event
    ensures { result ≡ coord_e x y (value_in z) (value_in m) (value_in t) (value_in tm) idx }
{
    let present = bit_if(z, Flags::Z)
        + bit_if(m, Flags::M)
        + bit_if(t, Flags::T)
        + bit_if(tm, Flags::TM);
    Event::coordinate(
        x,
        y,
        present,
        z.unwrap_or(0),
        m.unwrap_or(0),
        t.unwrap_or(0),
        tm.unwrap_or(0),
        idx,
    )
}

// The pair x, y as number idx of its line; n is its number in the record's lists.
pub fn read_pair(lists: &Lists, x: u64, y: u64, n: usize, idx: u32) -> Result<Event, Refusal>
    ensures { let C = coords_in lists.now in
        ((k : Script E) → pair_s C.many (dropped n C.lanes) x y idx k ≡ told result k) }
{
    if !lists.many {
        return Ok(Event::xy(x, y, idx));
    }
    let z = value_at(lists.z, n)?;
    let m = value_at(lists.m, n)?;
    let t = value_at(lists.t, n)?;
    let tm = value_at(lists.tm, n)?;
    Ok(coordinate(x, y, z, m, t, tm, idx))
}
