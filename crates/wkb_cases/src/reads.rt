//! Well-known binary read into a log.
use event_log::{Events, Log};
use kinds::refusal::answer_number;
use replay::{Differences, Fields};

pub fn read(mut case: Fields<'_>, memory: &mut [u8]) -> Differences {
    let number = case.number();
    let count = case.number() as usize;
    let log_length = case.number() as usize;
    let feature = case.number();
    let byte_count = case.number() as usize;
    let bytes = case.bytes(byte_count);
    let records = case.rest();
    let Some(log) = memory.get_mut(..log_length) else {
        return Differences::CASE;
    };
    replay::clear(log);
    let (read_number, read_count) = read_wkb(bytes, feature, log);
    Differences {
        number: u32::from(read_number) != number,
        count: read_count != count,
        memory: !replay::holds(log, 0, records),
        ..Differences::NONE
    }
}

// The number and the count that a reading answers.
fn read_wkb(bytes: &[u8], feature: u32, log: &mut [u8]) -> (u8, usize) {
    let mut log = Log::new(log, Events { feature });
    let read = wkb_reader::read_wkb(bytes, &mut log);
    (answer_number(&read), log.count())
}
