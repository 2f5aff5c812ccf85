//! Property bytes read into a log.
use crate::answers::{number_of, place_of};
use property_reader::PropertiesRead;
use replay::{Differences, Fields};

#[derive(Clone, Copy)]
struct Case {
    number: u32,
    count: usize,
    stopped: bool,
    log_length: usize,
    has_columns: bool,
    column_count: usize,
    stop: u32,
    byte_count: usize,
    place: usize,
}

impl Case {
    fn new(fields: &mut Fields<'_>) -> Case {
        Case {
            number: fields.number(),
            count: fields.number() as usize,
            stopped: fields.flag(),
            log_length: fields.number() as usize,
            has_columns: fields.flag(),
            column_count: fields.number() as usize,
            stop: fields.number(),
            byte_count: fields.number() as usize,
            place: fields.number() as usize,
        }
    }
}

/// Behind its numbers a case has the columns, the property bytes, and the records that they are read as.
pub fn read(mut fields: Fields<'_>, memory: &mut [u8]) -> Differences {
    let case = Case::new(&mut fields);
    let columns = fields.bytes(case.column_count);
    let bytes = fields.bytes(case.byte_count);
    let Some(log) = memory.get_mut(..case.log_length) else {
        return Differences::CASE;
    };
    replay::clear(log);
    let read = read_properties(case, columns, bytes, log);
    Differences {
        number: number_of(&read.stopped) != case.number,
        count: read.count != case.count || place_of(&read.stopped) != case.place,
        answer: read.stopped.unwrap_or(false) != case.stopped,
        memory: !replay::holds(log, 0, fields.rest()),
        ..Differences::NONE
    }
}

fn read_properties(case: Case, columns: &[u8], bytes: &[u8], log: &mut [u8]) -> PropertiesRead {
    let columns = case.has_columns.then_some(columns);
    property_reader::read_properties(bytes, columns, case.stop, log)
}
