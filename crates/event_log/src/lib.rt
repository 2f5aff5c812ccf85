// Logs in lent memory: events, said and heard, and values. No record's bytes show above it.
#![tactic(auto)]

mod events;
mod layouts;
mod log;

pub use events::{event_in, feature_in, hear, hear_bare, is_event, is_pair, no_rest};
pub use layouts::{EventLog, Events, ValueLog, Values};
pub use log::{Layout, Log};

// How wide the records are.
pub const EVENT_BYTES: usize = 64;

pub const VALUE_BYTES: usize = 16;
