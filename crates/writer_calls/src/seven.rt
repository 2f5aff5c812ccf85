//! A case's call, on the memory that the case lends.
use crate::call::{Answered, Call};
use crate::sort::Sort;
use as_words::state::{DETECT, PROMOTE, StateWords};
use replay::Fields;

/// The memory that a call is lent: the table, or a buffer for properties, and the pools.
#[derive(Drop)]
pub struct Store<'a> {
    pub bytes: &'a mut [u8],
    pub xy: &'a mut [u64],
    pub ends: &'a mut [u32],
    pub z: &'a mut [u64],
    pub m: &'a mut [u64],
    pub t: &'a mut [u64],
    pub tm: &'a mut [u64],
}

// A number that comes alone.
fn alone(number: u8) -> Answered {
    Answered {
        number: u32::from(number),
        count: 0,
    }
}

// Starts a row. Of a mark 0 is no, all else yes.
fn start(call: &Call<'_>, state: &mut StateWords) -> Answered {
    let [_, _, _, marks] = call.state[0].to_le_bytes();
    bintolage::bintolage_start(state, call.declared, marks & DETECT, marks & PROMOTE);
    alone(0)
}

fn put_property(call: &Call<'_>, state: &mut StateWords, buffer: &mut [u8]) -> Answered {
    let mut given = Fields::new(call.given);
    let bits = given.word();
    // A place that no text here has, so that one which is left standing differs.
    let mut place = 0xc0de_c0de;
    let number = bintolage::bintolage_property(
        state,
        call.column,
        call.kind,
        bits,
        given.rest(),
        buffer,
        &mut place,
    );
    Answered {
        number: u32::from(number),
        count: place,
    }
}

/// The one place that makes calls with all seven slices, as the C interface has them.
pub fn make(call: &Call<'_>, state: &mut StateWords, store: Store<'_>) -> Answered {
    let Store {
        bytes,
        xy,
        ends,
        z,
        m,
        t,
        tm,
    } = store;
    match call.sort {
        None | Some(Sort::Row) => start(call, state),
        Some(Sort::Event) => alone(bintolage::bintolage_event(
            state, call.given, bytes, xy, ends, z, m, t, tm,
        )),
        Some(Sort::Events) => {
            let mut taken = 0;
            let number = bintolage::bintolage_events(
                state, call.given, bytes, xy, ends, z, m, t, tm, &mut taken,
            );
            Answered {
                number: u32::from(number),
                count: taken,
            }
        }
        Some(Sort::Property) => put_property(call, state, bytes),
        Some(Sort::Finish) => alone(bintolage::bintolage_finish(
            state, bytes, xy, ends, z, m, t, tm,
        )),
        Some(Sort::Next) => alone(bintolage::bintolage_next(state, bytes, xy, ends, z, m, t, tm)),
        // A state as its caller may have kept it, in whose words anything may stand that is not looked at.
        Some(Sort::Words) => {
            *state = call.state;
            alone(0)
        }
    }
}
