//! Memory that a call is lent: a case's values at their place, and canaries around them.
ghost use Rattle.std.specs.Iterator.{IsFinite};

/// What stands in memory that a call must leave alone. A canary goes by its place, so that what only moved shows too.
pub trait Canary: Copy + PartialEq {
    fn canary(place: usize) -> Self;
}

impl Canary for u8 {
    // A place is taken in half a word, which is divided in half the time.
    fn canary(place: usize) -> u8 {
        let place = (place % 4294967296) as u32;
        (place % 251) as u8
    }
}

impl Canary for u32 {
    fn canary(place: usize) -> u32 {
        0xc0de_0000 ^ ((place % 65536) as u32)
    }
}

impl Canary for u64 {
    // Among the greatest doubles, of both signs for both axes: a box that took one of them shows it.
    fn canary(place: usize) -> u64 {
        let low = (place % 1048576) as u64;
        if place % 4 < 2 {
            0x7fef_ffff_fff0_0000 ^ low
        } else {
            0xffef_ffff_fff0_0000 ^ low
        }
    }
}

/// Canaries alone.
pub fn clear<T: Canary>(memory: &mut [T]) {
    for (place, item) in memory.iter_mut().enumerate() {
        *item = T::canary(place);
    }
}

/// Lays values down from a place on, as far as they fit, and canaries everywhere else.
pub fn lay<T: Canary, I: Iterator<Item = T>>(memory: &mut [T], place: usize, values: I)
    requires { I.can_next values }
{
    clear(memory);
    for (item, value) in memory.iter_mut().skip(place).zip(values) {
        *item = value;
    }
}

// What `lay` leaves at a place.
fn laid<T: Canary>(at: usize, place: usize, values: &[T]) -> T {
    match at.checked_sub(place) {
        Some(i) if i < values.len() => values[i],
        _ => T::canary(at),
    }
}

/// Whether memory is as `lay` leaves it, with all of the values in it.
pub fn holds<T: Canary>(memory: &[T], place: usize, values: &[T]) -> bool {
    let room = memory.len().saturating_sub(place);
    values.len() <= room
        && memory
            .iter()
            .enumerate()
            .all(|(at, item)| *item == laid(at, place, values))
}

/// Whether memory has canaries alone.
pub fn is_clear<T: Canary>(memory: &[T]) -> bool {
    holds(memory, 0, &[])
}
