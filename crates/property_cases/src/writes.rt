//! A property written to a buffer.
use crate::answers::{number_of, place_of};
use property_value::PropertyRefusal;
use property_writer::Property;
use replay::{Differences, Fields};

#[derive(Clone, Copy)]
struct Case {
    number: u32,
    used_after: u32,
    waiting: bool,
    used: u32,
    column: u32,
    kind: u8,
    bits: u64,
    buffer_length: usize,
    text_length: usize,
    place: usize,
}

impl Case {
    fn new(fields: &mut Fields<'_>) -> Case {
        Case {
            number: fields.number(),
            used_after: fields.number(),
            waiting: fields.flag(),
            used: fields.number(),
            column: fields.number(),
            kind: fields.small_number(),
            bits: fields.word(),
            buffer_length: fields.number() as usize,
            text_length: fields.number() as usize,
            place: fields.number() as usize,
        }
    }
}

/// Behind its numbers a case has the text, and the bytes that are laid down.
pub fn written(mut fields: Fields<'_>, memory: &mut [u8]) -> Differences {
    let case = Case::new(&mut fields);
    let text = fields.bytes(case.text_length);
    let Some(buffer) = memory.get_mut(..case.buffer_length) else {
        return Differences::CASE;
    };
    replay::clear(buffer);
    let put = put_property(case, text, buffer);
    Differences {
        number: number_of(&put) != case.number,
        count: put.unwrap_or(case.used) != case.used_after || place_of(&put) != case.place,
        memory: !replay::holds(buffer, case.used as usize, fields.rest()),
        ..Differences::NONE
    }
}

// How many bytes of the buffer are used then.
fn put_property(case: Case, text: &[u8], buffer: &mut [u8]) -> Result<u32, PropertyRefusal> {
    let property = Property {
        column: case.column,
        kind: case.kind,
        bits: case.bits,
        text,
    };
    property_writer::put_property(case.waiting, case.used, property, buffer)
}
