// What the feature in hand was given, and what became of it.
use event_log::{EVENT_BYTES, VALUE_BYTES};
use report::{Feature, KEPT};
use std::alloc::{AllocError, Global};

#[derive(Drop)]
pub struct InHand {
    // How many features were left behind.
    features: u64,
    events: usize,
    properties: usize,
    // Whether an event of it was taken: then the library holds its number.
    numbered: bool,
    // Whether anything of it was refused.
    refused: bool,
    // The events that were given and the values as they are to come back, each at its own place. What has no place is not kept.
    sent: Vec<u8>,
    given: Vec<u8>,
}

// So many bytes of values are kept to be compared.
const VALUES_BYTES: usize = 65536;

// Puts a record down at its place, where there is one.
fn keep<const N: usize>(row: &mut [u8], n: usize, record: &[u8; N]) {
    let from = n.saturating_mul(N);
    let end = from.saturating_add(N);
    if let Some(place) = row.get_mut(from..end) {
        place.copy_from_slice(record);
    }
}

impl InHand {
    pub fn new(alloc: Global) -> Result<InHand, AllocError> {
        Ok(InHand {
            features: 0,
            events: 0,
            properties: 0,
            numbered: false,
            refused: false,
            sent: vec![in alloc; 0u8; EVENT_BYTES * KEPT]?,
            given: vec![in alloc; 0u8; VALUES_BYTES]?,
        })
    }

    // As people count.
    pub fn ordinal(&self) -> u64 {
        self.features.saturating_add(1)
    }

    pub fn features(&self) -> u64 {
        self.features
    }

    pub fn events(&self) -> usize {
        self.events
    }

    pub fn properties(&self) -> usize {
        self.properties
    }

    // The events that were given stand first.
    pub fn sent(&self) -> &[u8] {
        self.sent.as_slice()
    }

    // More values than are kept come back different.
    pub fn given(&self) -> &[u8] {
        let given = self.given.as_slice();
        let end = self.properties.saturating_mul(VALUE_BYTES);
        given.get(..end).unwrap_or(given)
    }

    pub fn is_untouched(&self) -> bool {
        self.events == 0 && self.properties == 0
    }

    // With the number that the library holds.
    pub fn feature(&self, number: u32) -> Feature {
        Feature {
            ordinal: self.ordinal(),
            number: if self.numbered { Some(number) } else { None },
            events: self.events,
            refused: self.refused,
        }
    }

    pub fn refuse(&mut self) {
        self.refused = true;
    }

    pub fn put_event(&mut self, event: &[u8; EVENT_BYTES]) {
        keep(&mut self.sent, self.events, event);
        self.events = self.events.saturating_add(1);
    }

    // An event of it was taken.
    pub fn take_number(&mut self) {
        self.numbered = true;
    }

    pub fn count_property(&mut self) {
        self.properties = self.properties.saturating_add(1);
    }

    // The value of the next property.
    pub fn put_value(&mut self, value: &[u8; VALUE_BYTES]) {
        keep(&mut self.given, self.properties, value);
        self.count_property();
    }

    // The next feature is in hand.
    pub fn leave(&mut self) {
        self.features = self.features.saturating_add(1);
        self.events = 0;
        self.properties = 0;
        self.numbered = false;
        self.refused = false;
    }
}
