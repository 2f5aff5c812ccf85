//! A property's answer as a case has it, in numbers.
use property_value::PropertyRefusal;

/// The number of an answer, 0 for done.
pub fn number_of<T>(answer: &Result<T, PropertyRefusal>) -> u32 {
    match answer {
        Ok(_) => 0,
        Err(refused) => u32::from(refused.refusal().number()),
    }
}

/// The place of the first bad byte in a text, and 0 where there is none.
pub fn place_of<T>(answer: &Result<T, PropertyRefusal>) -> usize {
    match answer {
        Ok(_) => 0,
        Err(refused) => refused.place(),
    }
}
