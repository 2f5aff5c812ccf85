// The logs' records: events of a feature, and values.
ghost use Rattle.event_log.specs.Log.{events};
ghost use Rattle.event_log.specs.Values.{values};

use crate::log::{Layout, Log};
use crate::{EVENT_BYTES, VALUE_BYTES};
use kinds::event::Event;
use kinds::value::Value;

// A feature's events, each with the feature's number.
#[derive(Clone, Copy, Debug, PartialEq, Eq)]
pub struct Events {
    pub feature: u32,
}

#[derive(Clone, Copy, Debug, PartialEq, Eq)]
pub struct Values;

impl Layout for Events {
    type Item = Event;

    ghost format = { λ f. events f.feature };

    fn wide(&self) -> usize {
        EVENT_BYTES
    }

    fn put(&self, bytes: &mut [u8], item: Event) {
        event_layout::put_event(bytes, self.feature, item);
    }
}

impl Layout for Values {
    type Item = Value;

    ghost format = { λ _. values };

    fn wide(&self) -> usize {
        VALUE_BYTES
    }

    fn put(&self, bytes: &mut [u8], item: Value) {
        event_layout::put_value(bytes, item);
    }
}

pub type EventLog<'a> = Log<'a, Events>;

pub type ValueLog<'a> = Log<'a, Values>;
