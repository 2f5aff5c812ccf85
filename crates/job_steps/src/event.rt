// An event is given to the library.
use crate::in_hand::InHand;
use console::{Record, Refused};
use event_log::EVENT_BYTES;
use job_calls::Library;
use std::io;

// Whose event it is, where it is refused for that.
fn write_owner<W: io::Write>(
    out: &mut W,
    event: &[u8; EVENT_BYTES],
    refused: Refused,
) -> io::Result<()> {
    if refused != Refused::OTHER_FEATURE {
        return Ok(());
    }
    write!(out, ", of number {}", event_log::feature_in(event))
}

fn write_refused<W: io::Write>(
    out: &mut W,
    hand: &InHand,
    event: &[u8; EVENT_BYTES],
    refused: Refused,
) -> io::Result<()> {
    let ordinal = hand.ordinal();
    let count = hand.events();
    write!(out, "feature {ordinal}, event {count} ({}", Record(event))?;
    write_owner(out, event, refused)?;
    writeln!(out, "): {refused}")
}

pub fn take_event<W: io::Write>(
    out: &mut W,
    hand: &mut InHand,
    library: &mut Library,
    event: &[u8; EVENT_BYTES],
) -> io::Result<()> {
    hand.put_event(event);
    match library.event(event) {
        Ok(()) => {
            hand.take_number();
            Ok(())
        }
        Err(refused) => {
            hand.refuse();
            write_refused(out, hand, event, refused)
        }
    }
}
