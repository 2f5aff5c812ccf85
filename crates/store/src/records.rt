// Geometry records by number.
ghost use Rattle.std.specs.Prelude.{◌≡◌, ◌+◌, ◌<◌, length};
ghost use Rattle.laws.specs.Blocks.{block};
ghost use Rattle.store.specs.Lone.{LoneAt, in_xy_pool};
ghost use Rattle.store.specs.Records.{records_lent, has_record, in_pool, in_table, lists_in, record_at, put_record};

use kinds::geometry::{Geometry, Stretch};
use kinds::lanes::Lent;
use kinds::usable;

// How many whole records a table has.
pub fn records_lent(table: &[u8]) -> usize
    ensures { result ≡ records_lent table.now }
{
    table.len() / 64
}

fn has_record(table: &[u8], n: usize) -> bool
    ensures { result ≡ has_record table.now n }
{
    let lent = table.len() / 64;
    (table.len() % 64 == 0) & (lent != 0) & (n < lent) & (n < usable::RECORDS)
}

// The bytes of the record with a number.
fn bytes_of(table: &[u8], n: usize) -> &[u8]
    requires { n < records_lent table.now }
    ensures bytes { result.now ≡ block 64 table.now n }
    ensures long { length result.now ≡ 64 }
{
    let from = 64 * n;
    &table[from..from + 64]
}

fn in_pool(list: Option<Stretch>, lent: usize, most: usize) -> bool
    ensures { result ≡ in_pool list lent most }
{
    match list {
        None => true,
        Some(Stretch { start, count }) => {
            let end = (start as usize) + (count as usize);
            (end <= lent) & (end <= most)
        }
    }
}

fn in_table(list: Option<Stretch>, n: usize, lent: usize) -> bool
    ensures { result ≡ in_table list n lent }
{
    match list {
        None => true,
        Some(Stretch { start, count }) => {
            let end = (start as usize) + (count as usize);
            (n < start as usize) & (end <= lent) & (end <= usable::RECORDS)
        }
    }
}

// One conjunction of all tests, which makes no branch between the lists.
fn lists_in(g: Geometry, pools: Lent, n: usize, lent: usize) -> bool
    ensures { result ≡ lists_in g pools n lent }
{
    in_pool(g.xy, pools.xy, usable::XY_WORDS)
        & in_pool(g.ends, pools.ends, usable::POOL_WORDS)
        & in_pool(g.z, pools.z, usable::POOL_WORDS)
        & in_pool(g.m, pools.m, usable::POOL_WORDS)
        & in_pool(g.t, pools.t, usable::POOL_WORDS)
        & in_pool(g.tm, pools.tm, usable::POOL_WORDS)
        & in_table(g.parts, n, lent)
}

// The record with a number, its lists as stretches of pools of which so much is lent.
pub fn record_at(table: &[u8], pools: Lent, n: usize) -> Option<Geometry>
    ensures { result ≡ record_at table.now pools n }
{
    if !has_record(table, n) {
        return None;
    }
    let g = geometry_layout::read_geometry(bytes_of(table, n))?;
    if lists_in(g, pools, n, records_lent(table)) {
        Some(g)
    } else {
        None
    }
}

fn in_xy_pool(read: Option<Stretch>, lent: usize) -> Option<Stretch>
    ensures { result ≡ in_xy_pool read lent }
{
    if in_pool(read, lent, usable::XY_WORDS) {
        read
    } else {
        None
    }
}

// The list of the record with a number, where it is an xy list in a pool of which so much is lent and the record has no other:
// a quick way to what `record_at` says of it.
pub fn lone_list_at(table: &[u8], lent: usize, n: usize) -> Option<Stretch>
    ensures { LoneAt table.now lent n result }
{
    if !has_record(table, n) {
        return None;
    }
    in_xy_pool(geometry_layout::lone_list(bytes_of(table, n)), lent)
}

// Puts a record down in a table that has its number.
pub fn put_record(table: &mut [u8], n: usize, g: Geometry)
    requires { n < records_lent table.old }
    ensures { table.new ≡ put_record table.old n g }
{
    let from = 64 * n;
    geometry_layout::put_geometry(&mut table[from..from + 64], g);
}
