// A geometry's box, by record number: its own pairs and then each part's, in order, to the last level.
#![tactic(auto)]

ghost use Rattle.std.specs.Prelude.{◌≡◌, ◌-◌, ◌<◌, length};
ghost use Rattle.store.specs.RecordLaws.{InPool};
ghost use Rattle.store.specs.Lists.{lent_of, pools_in, record_with};
ghost use Rattle.tree_walk.specs.Memory.{walked, kept, uncounted};
ghost use Rattle.tree_walk.specs.Records.{parts_lent};
ghost use Rattle.record_box.specs.Boxed.{boxed_of, box_of};
ghost use Rattle.record_box.specs.Lent.{Leaves, own_looked, own_lent};

use bbox::Box;
use kinds::geometry::Stretch;
use kinds::refusal::Refusal;
use kinds::usable;
use store::Store;
use tree_walk::{Marks, NONE, is_clear, parts_of};

// A record's own list is looked at only where the record was never walked through.
fn own_once(xy: &[u64], list: Option<Stretch>, mark: u16, around: Box) -> Box
    requires { InPool list (length xy.now) 131072 }
    ensures { result ≡ own_looked xy.now mark list around }
{
    if is_clear(mark, usable::LEVELS) {
        return around;
    }
    match list {
        None => around,
        Some(Stretch { start, count }) => {
            let from = start as usize;
            let end = from + (count as usize);
            around.widened_by(&xy[from..end])
        }
    }
}

// Record n with so many levels left, its own among them. Most records are a list and no parts: those are done here.
#[cycle(enter_walk)]
fn enter(
    store: &Store,
    marks: &mut Marks,
    n: usize,
    levels: u8,
    around: Box,
) -> Result<Box, Refusal>
    requires { n < 4096 }
    ensures { let P = pools_in store.now.pools in
        let get = parts_lent store.now.table.now (lent_of P) in
        Leaves (kept uncounted get (own_lent store.now.table.now (lent_of P) P.xy) levels n around marks.old 0) result marks.new }
{
    if levels == 0 {
        return Err(Refusal::TooDeep);
    }
    let mark = marks[n];
    // What was walked through as deep as this is refused nothing here, and its pairs move nothing a second time.
    if is_clear(mark, levels) {
        return Ok(around);
    }
    if let Some(list) = store.lone_list(n) {
        let bbox = own_once(store.pools.xy, Some(list), mark, around);
        marks[n] = levels as u16;
        return Ok(bbox);
    }
    walk(store, marks, n, levels, around)
}

// Record n, which is not skipped: its own list, and then each part.
#[cycle(enter_walk)]
fn walk(store: &Store, marks: &mut Marks, n: usize, levels: u8, around: Box) -> Result<Box, Refusal>
    requires number { n < 4096 }
    requires level { 0 < levels }
    ensures { let P = pools_in store.now.pools in
        let get = parts_lent store.now.table.now (lent_of P) in
        let own = own_lent store.now.table.now (lent_of P) P.xy in
        Leaves (walked get own (kept uncounted get own (levels - 1)) levels n around marks.old 0) result marks.new }
{
    let Some(g) = store.record(n) else {
        return Err(Refusal::BadRecord);
    };
    let parts = parts_of(g.parts, n);
    let end = parts.first + (parts.count as usize);
    let mut so_far = own_once(store.pools.xy, g.xy, marks[n], around);
    for part in parts.first..end {
        so_far = enter(store, marks, part, levels - 1, so_far)?;
    }
    // Behind the last part, so that a record with a mark is one whose parts were refused nothing.
    marks[n] = levels as u16;
    Ok(so_far)
}

// The box of record n, which is level 1; or the refusal of the first record that is too deep, or bad.
pub fn box_at(store: &Store, n: usize) -> Result<Box, Refusal>
    ensures { boxed_of result ≡ box_of (record_with store.now.table.now (pools_in store.now.pools)) n }
{
    if usable::RECORDS <= n {
        Err(Refusal::BadRecord)
    } else {
        let mut marks = [NONE; usable::RECORDS];
        enter(store, &mut marks, n, usable::LEVELS, Box::empty())
    }
}
