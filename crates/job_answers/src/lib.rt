// A feature is finished: read back, compared and shown, and then left behind.
#![tactic(auto)]

use console::Refused;
use event_log::EVENT_BYTES;
use job_calls::Library;
use job_file::{Columns, Head};
use job_steps::InHand;
use report::{Feature, KEPT, show_box, show_geometry, show_properties};
use std::alloc::{AllocError, Global};
use std::io;

// One event more than is kept to be compared.
const LOG_BYTES: usize = EVENT_BYTES * (KEPT + 1);

const VALUES_BYTES: usize = 65536;

// Where a feature is read back to: its events, and its properties' values.
#[derive(Drop)]
pub struct Logs {
    events: Vec<u8>,
    values: Vec<u8>,
}

impl Logs {
    pub fn new(alloc: Global) -> Result<Logs, AllocError> {
        Ok(Logs {
            events: vec![in alloc; 0u8; LOG_BYTES]?,
            values: vec![in alloc; 0u8; VALUES_BYTES]?,
        })
    }
}

fn write_refused<W: io::Write>(
    out: &mut W,
    hand: &InHand,
    call: &str,
    refused: Refused,
) -> io::Result<()> {
    let ordinal = hand.ordinal();
    writeln!(out, "feature {ordinal}, {call}: {refused}")
}

// A feature without a map has neither its box shown nor its properties.
fn show_kept<W: io::Write>(
    out: &mut W,
    feature: Feature,
    hand: &InHand,
    library: &Library,
    head: Head,
    columns: &Columns,
    logs: &mut Logs,
) -> io::Result<()> {
    let read = library.read(head.flags, &mut logs.events);
    if !show_geometry(out, feature, read, hand.sent(), &logs.events)? {
        return Ok(());
    }
    show_box(out, library.edges())?;
    let read = library.read_properties(columns.types(), &mut logs.values);
    show_properties(
        out,
        read,
        hand.given(),
        &logs.values,
        library.properties(),
        columns,
    )
}

pub fn finish<W: io::Write>(
    out: &mut W,
    hand: &mut InHand,
    library: &mut Library,
    head: Head,
    columns: &Columns,
    logs: &mut Logs,
) -> io::Result<()> {
    if let Err(refused) = library.finish() {
        hand.refuse();
        write_refused(out, hand, "finishing it", refused)?;
    }
    let feature = hand.feature(library.feature());
    match feature.is_kept() {
        Ok(()) => show_kept(out, feature, hand, library, head, columns, logs)?,
        Err(reason) => writeln!(out, "{feature}: no map, {reason}")?,
    }
    if let Err(refused) = library.leave() {
        write_refused(out, hand, "leaving it behind", refused)?;
    }
    hand.leave();
    Ok(())
}
