//! A case: what is called and lent, and what is expected of it.
use crate::sort::Sort;
use as_words::state::{STATE_WORDS, StateWords};
use replay::{Differences, Fields};

const RECORD_BYTES: usize = 64;

/// How much is lent: bytes of the table, or of a buffer for properties, and words of each pool.
#[derive(Clone, Copy)]
pub struct Lent {
    pub bytes: usize,
    pub xy: usize,
    pub ends: usize,
    pub z: usize,
    pub m: usize,
    pub t: usize,
    pub tm: usize,
}

/// What a call answers: the number, and beside it how many events it took where it was given many, or a property's place.
#[derive(Clone, Copy, PartialEq, Eq)]
pub struct Answered {
    pub number: u32,
    pub count: usize,
}

#[derive(Clone, Copy)]
pub struct Call<'a> {
    /// What is called. A number that is no sort's starts the state as a row does, and no more.
    pub sort: Option<Sort>,
    /// The declared type, by which a row is started.
    pub declared: u8,
    pub answered: Answered,
    /// How often the call is made, which is at least once.
    pub times: u32,
    pub lent: Lent,
    /// The state that the call leaves.
    pub state: StateWords,
    pub column: u32,
    pub kind: u8,
    /// The checksum of the memory that the call leaves.
    pub sum: u64,
    pub given: &'a [u8],
}

impl Lent {
    /// The bytes, and no pool.
    pub fn bytes_alone(self) -> Lent {
        Lent {
            bytes: self.bytes,
            xy: 0,
            ends: 0,
            z: 0,
            m: 0,
            t: 0,
            tm: 0,
        }
    }
}

// Numbers have one byte each, or four in a case that needs it.
fn next_number(fields: &mut Fields<'_>, is_wide: bool) -> u32 {
    if is_wide {
        fields.number()
    } else {
        u32::from(fields.byte())
    }
}

fn next_lent(fields: &mut Fields<'_>, is_wide: bool) -> Lent {
    let records = next_number(fields, is_wide) as usize;
    let more = next_number(fields, is_wide) as usize;
    Lent {
        bytes: RECORD_BYTES * records + more,
        xy: next_number(fields, is_wide) as usize,
        ends: next_number(fields, is_wide) as usize,
        z: next_number(fields, is_wide) as usize,
        m: next_number(fields, is_wide) as usize,
        t: next_number(fields, is_wide) as usize,
        tm: next_number(fields, is_wide) as usize,
    }
}

fn low_byte(number: u32) -> u8 {
    let [low, ..] = number.to_le_bytes();
    low
}

// The state's words but for the first, which stands at the case's head.
fn next_state(fields: &mut Fields<'_>, is_wide: bool, first: u32) -> StateWords {
    let mut state = [first; STATE_WORDS];
    for word in state.iter_mut().skip(1) {
        *word = next_number(fields, is_wide);
    }
    state
}

impl<'a> Call<'a> {
    /// The call of a case.
    pub fn new(case: &'a [u8]) -> Call<'a> {
        let mut fields = Fields::new(case);
        let is_wide = fields.byte() == 4;
        let sort = Sort::of_number(fields.byte());
        // The first byte of the state's first word, which counts even where a case ends within that word.
        let mut word = fields;
        let declared = word.byte();
        let first = fields.number();
        Call {
            sort,
            declared,
            answered: Answered {
                number: next_number(&mut fields, is_wide),
                count: next_number(&mut fields, is_wide) as usize,
            },
            times: next_number(&mut fields, is_wide),
            lent: next_lent(&mut fields, is_wide),
            state: next_state(&mut fields, is_wide, first),
            column: next_number(&mut fields, is_wide),
            kind: low_byte(next_number(&mut fields, is_wide)),
            sum: fields.word(),
            given: fields.rest(),
        }
    }

    /// What differs in an answer.
    pub fn differences(&self, answered: Answered) -> Differences {
        Differences {
            number: answered.number != self.answered.number,
            count: answered.count != self.answered.count,
            ..Differences::NONE
        }
    }

    /// What differs in an answer, and in what the call left behind, the memory by its checksum.
    pub fn differences_in_all(
        &self,
        answered: Answered,
        state: &StateWords,
        sum: u64,
    ) -> Differences {
        Differences {
            answer: *state != self.state,
            memory: sum != self.sum,
            ..self.differences(answered)
        }
    }
}
