// Runs the job of standard input: writes each feature, reads it back, and prints its map, or why there is none.
#![tactic(auto)]

mod output;

use crate::output::Output;
use job_answers::{Logs, finish};
use job_calls::Library;
use job_file::{Columns, Head, Item, JobError, Source, TEXT_BYTES};
use job_steps::{InHand, take_event, take_property};
use std::alloc::Global;
use std::io;
use std::io::{BufWriter, Read, Write};

fn end<W: Write>(out: &mut W, hand: &InHand) -> io::Result<()> {
    if !hand.is_untouched() {
        let ordinal = hand.ordinal();
        writeln!(out, "feature {ordinal}: no map, the job ends within it")?;
    }
    let features = hand.features();
    writeln!(out, "end of the job, after {features} features")
}

// All memory is taken before the first item, so that none can want for it.
fn run<R: Read, W: Write>(
    alloc: Global,
    source: &mut Source<R>,
    out: &mut W,
) -> Result<(), JobError> {
    let head = Head::read(source)?;
    let columns = Columns::read(alloc, source, head.columns)?;
    let mut library = Library::new(alloc, head.declared, head.detect, head.promote)?;
    let mut logs = Logs::new(alloc)?;
    let mut hand = InHand::new(alloc)?;
    let mut text = vec![in alloc; 0u8; TEXT_BYTES]?;
    // Nothing says that the input ends, so the items are counted to a number that no job comes to.
    for _ in 0..u64::MAX {
        let Some(item) = Item::read(source, &mut text)? else {
            break;
        };
        match item {
            Item::Event(event) => take_event(out, &mut hand, &mut library, &event)?,
            Item::Property(property) => {
                take_property(out, &mut hand, &mut library, &columns, &property)?;
            }
            Item::Finish => finish(out, &mut hand, &mut library, head, &columns, &mut logs)?,
        }
        // What was said of an item is to be seen before the next one comes.
        out.flush()?;
    }
    end(out, &hand)?;
    Ok(())
}

// An input that is no job is told of as all else is, and is no failure of the program.
fn main(rt: HostRuntime) -> io::Result<()> {
    let mut source = Source::new(rt.reader());
    let mut out = BufWriter::new(rt.alloc(), Output::new(io::writer(&rt)))?;
    match run(rt.alloc(), &mut source, &mut out) {
        Ok(()) => {}
        Err(JobError::NoJob(fault)) => writeln!(out, "{fault}")?,
        Err(JobError::Io(error)) => return Err(error),
    }
    out.flush()
}
