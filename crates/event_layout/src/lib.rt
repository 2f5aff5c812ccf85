// The records of logs, events and values, as bytes: little-endian, spare bytes zero. Each function works on the bytes of one record.
#![tactic(auto)]

mod event;
mod head;
mod value;

pub use event::{event_of, feature_of, is_event, is_pair, put_event, read_bare, read_event};
pub use value::put_value;
