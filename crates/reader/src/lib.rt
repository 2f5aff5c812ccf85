// The geometry reader: a tree of records, as events in a log.
#![tactic(auto)]

ghost use Rattle.std.specs.Prelude.{◌≡◌, cond, eqb};
ghost use Rattle.kinds.specs.GeometryType.{number};
ghost use Rattle.store.specs.Lists.{pools_in, parts_of, lists_of, record_with};
ghost use Rattle.event_log.specs.Says.{Says, of_events};
ghost use Rattle.own_lists.specs.Own.{InPools};
ghost use Rattle.reader.specs.Reading.{span_s, read_s};
ghost use Rattle.reader.specs.Roles.{part_s, walk_s};

use coords::Head;
use event_log::EventLog;
use kinds::flags::Flags;
use kinds::geometry::{Geometry, Stretch};
use kinds::geometry_type::GeometryType;
use kinds::refusal::Refusal;
use kinds::{geometry_type, usable};
use lone_ring::Ring;
use store::Store;
use walks::{Role, Walk, lone_part, walk_in, walk_of};

// read_geometry_n: a record by its walk, as number idx, with so many levels left below it.
#[cycle(read_geometry_n_read_geometrycollection_read_part)]
fn read_geometry_n(
    store: &Store,
    flags: Flags,
    g: &Geometry,
    walk: Walk,
    idx: u32,
    levels: u8,
    log: &mut EventLog,
) -> Result<(), Refusal>
    requires { InPools (pools_in store.now.pools) g.now }
    ensures { let P = pools_in store.now.pools in
        Says of_events (walk_s flags levels (record_with store.now.table.now P) (lists_of P g.now) walk idx) log.old log.new result }
{
    match walk {
        Walk::Own(own) => own_lists::read_own(&store.pools, flags, g, own, idx, log),
        Walk::Parts { kind, role } => {
            read_geometrycollection(store, flags, g.parts, kind, role, idx, levels, log)
        }
    }
}

// read_geometrycollection, read_multipolygon_type and read_curve: a begin, the parts in their role, an end.
#[cycle(read_geometry_n_read_geometrycollection_read_part)]
fn read_geometrycollection(
    store: &Store,
    flags: Flags,
    parts: Option<Stretch>,
    kind: GeometryType,
    role: Role,
    idx: u32,
    levels: u8,
    log: &mut EventLog,
) -> Result<(), Refusal>
    ensures { let P = pools_in store.now.pools in
        Says of_events (span_s (part_s flags role levels (record_with store.now.table.now P)) (parts_of parts) (number kind) idx) log.old log.new result }
{
    let Some(Stretch { start, count }) = parts else {
        return Err(Refusal::Missing);
    };
    let head = Head {
        kind: kind.number(),
        tagged: false,
        idx,
    };
    log.say(head.begin(count))?;
    for i in 0..count {
        let n = (start as usize) + (i as usize);
        read_part(store, flags, role, n, i, levels, log)?;
    }
    log.say(head.end())
}

// The record n as part idx: one level below the record that has it.
#[cycle(read_geometry_n_read_geometrycollection_read_part)]
fn read_part(
    store: &Store,
    flags: Flags,
    role: Role,
    n: usize,
    idx: u32,
    levels: u8,
    log: &mut EventLog,
) -> Result<(), Refusal>
    ensures { let P = pools_in store.now.pools in
        Says of_events (part_s flags role levels (record_with store.now.table.now P) n idx) log.old log.new result }
{
    if levels == 0 {
        return Err(Refusal::TooDeep);
    }
    if let Some(Stretch { start, count }) = lone_part(
        store.table,
        store.pools.xy.len(),
        flags,
        role,
        n,
    ) {
        let from = start as usize;
        let end = from + count as usize;
        let ring = Ring {
            xy: &store.pools.xy[from..end],
        };
        return lone_ring::read_lone_ring(ring, idx, log);
    }
    let Some(g) = store.record(n) else {
        return Err(Refusal::BadRecord);
    };
    let walk = walk_in(role, g.kind)?;
    read_geometry_n(store, flags, &g, walk, idx, levels - 1, log)
}

// The declared type, or the record's own where none is declared.
fn type_of(declared: u8, stored: u8) -> u8
    ensures { result ≡ cond (eqb declared 0) stored declared }
{
    if declared == geometry_type::UNKNOWN {
        stored
    } else {
        declared
    }
}

// The tree whose root is record 0, as events. A declared type is a byte, as C hands it over.
pub fn read(store: &Store, declared: u8, flags: Flags, log: &mut EventLog) -> Result<(), Refusal>
    ensures { Says of_events (read_s flags (record_with store.now.table.now (pools_in store.now.pools)) declared) log.old log.new result }
{
    let Some(g) = store.record(0) else {
        return Err(Refusal::BadRecord);
    };
    let walk = walk_of(type_of(declared, g.kind), g.kind)?;
    read_geometry_n(store, flags, &g, walk, 0, usable::LEVELS - 1, log)
}
