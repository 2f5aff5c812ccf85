// Whether a feature came back as it went in.
use crate::feature::Feature;
use compared::{comes_back, common};
use console::{Record, write_map};
use event_log::EVENT_BYTES;
use job_calls::Unread;
use std::io;

// The first records of a row, as far as it has them.
fn first_records(row: &[u8], count: usize) -> &[u8] {
    let end = count.saturating_mul(EVENT_BYTES);
    row.get(..end).unwrap_or(row)
}

fn write_nth<W: io::Write>(out: &mut W, records: &[u8], n: usize) -> io::Result<()> {
    match records.chunks_exact(EVENT_BYTES).nth(n) {
        Some(record) => write!(out, "{}", Record(record)),
        None => write!(out, "nothing"),
    }
}

fn write_difference<W: io::Write>(out: &mut W, sent: &[u8], back: &[u8]) -> io::Result<()> {
    let n = common(sent, back) / EVENT_BYTES;
    writeln!(out, ": COMES BACK DIFFERENT from event {} on", n + 1)?;
    write!(out, "  went in:   ")?;
    write_nth(out, sent, n)?;
    write!(out, "\n  came back: ")?;
    write_nth(out, back, n)?;
    writeln!(out, "\n  what came back, which is NOT what went in:")
}

// What is said follows from the comparison alone.
fn write_compared<W: io::Write>(
    out: &mut W,
    feature: Feature,
    count: usize,
    sent: &[u8],
    log: &[u8],
) -> io::Result<()> {
    if comes_back(feature.events, count, sent, log) {
        return writeln!(out, ": comes back as it went in");
    }
    write_difference(
        out,
        first_records(sent, feature.events),
        first_records(log, count),
    )
}

fn write_unread<W: io::Write>(out: &mut W, unread: Unread, log: &[u8]) -> io::Result<()> {
    let refused = unread.refused;
    let count = unread.count;
    write!(
        out,
        ": no map, reading it back is {refused}, after {count} events"
    )?;
    if count > 0 {
        write!(out, ", the last: ")?;
        write_nth(out, first_records(log, count), count - 1)?;
    }
    writeln!(out, "")
}

// Compares what was read back to the log with what was sent, and shows it. Answers whether there is a map of it.
pub fn show_geometry<W: io::Write>(
    out: &mut W,
    feature: Feature,
    read: Result<usize, Unread>,
    sent: &[u8],
    log: &[u8],
) -> io::Result<bool> {
    write!(out, "{feature}")?;
    match read {
        Ok(count) => {
            write_compared(out, feature, count, sent, log)?;
            write_map(out, first_records(log, count))?;
            Ok(true)
        }
        Err(unread) => {
            write_unread(out, unread, log)?;
            Ok(false)
        }
    }
}
