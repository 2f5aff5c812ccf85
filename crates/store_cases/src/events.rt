//! Events heard, and said to a log.
use event_log::{EVENT_BYTES, Events, Log};
use kinds::event::{Event, Heard};
use kinds::refusal::{Refusal, answer_number};
use replay::{Differences, Fields};

// Whether bytes are heard as an event.
fn heard_number(event: &[u8]) -> u8 {
    match event_log::hear(event) {
        Heard::Malformed => Refusal::Malformed.number(),
        _ => 0,
    }
}

// Only a record has the number of a feature.
fn feature_of(event: &[u8]) -> u32 {
    if event.len() == EVENT_BYTES {
        event_log::feature_in(event)
    } else {
        0
    }
}

pub fn heard(mut case: Fields<'_>) -> Differences {
    let number = case.number();
    let feature = case.number();
    let event = case.rest();
    Differences {
        number: u32::from(heard_number(event)) != number,
        answer: feature_of(event) != feature,
        ..Differences::NONE
    }
}

pub fn said(mut case: Fields<'_>, memory: &mut [u8]) -> Differences {
    let number = case.number();
    let log_length = case.number() as usize;
    let count = case.word() as usize;
    let count_after = case.word() as usize;
    let place = case.number() as usize;
    let (feature, event) = event_of(case.bytes(EVENT_BYTES));
    let Some(log) = memory.get_mut(..log_length) else {
        return Differences::CASE;
    };
    replay::clear(log);
    let (said_number, said_count) = say(log, feature, count, event);
    Differences {
        number: u32::from(said_number) != number,
        count: said_count != count_after,
        memory: !replay::holds(log, place, case.rest()),
        ..Differences::NONE
    }
}

// The number and the count that saying an event to a log answers.
fn say(log: &mut [u8], feature: u32, count: usize, event: Event) -> (u8, usize) {
    let mut log = Log::continued(log, Events { feature }, count);
    let said = log.say(event);
    (answer_number(&said), log.count())
}

// A record's feature and event, as SPEC 3.2 lays it out. It is not heard by the store, which may have no need of all of it.
fn event_of(record: &[u8]) -> (u32, Event) {
    let mut fields = Fields::new(record);
    let [kind, tagged, present, _] = fields.number().to_le_bytes();
    let size = fields.number();
    let idx = fields.number();
    let feature = fields.number();
    let event = Event {
        kind,
        tagged: tagged == 1,
        present,
        size,
        idx,
        x: fields.word(),
        y: fields.word(),
        z: fields.word(),
        m: fields.word(),
        t: fields.word(),
        tm: fields.word(),
    };
    (feature, event)
}
