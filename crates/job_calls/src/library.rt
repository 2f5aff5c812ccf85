// One function for each call. They are the exported ones, so that the program writes as a machine does.
use crate::answers::{BadValue, Edges, Unread};
use as_words::state::{PROPERTIES, STATE_WORDS, StateWords, declared_of, feature_of};
use console::Refused;
use std::alloc::{AllocError, Global};

const TABLE_BYTES: usize = 262144;

const XY_WORDS: usize = 131072;

// Of every other pool.
const WORDS: usize = 65536;

const PROPERTY_BYTES: usize = 65536;

// The root is the feature's first record, so its box is around the whole feature.
const ROOT: u32 = 0;

// No column is the last to be read.
const NO_STOP: u32 = 65536;

#[derive(Drop)]
pub struct Library {
    state: StateWords,
    table: Vec<u8>,
    xy: Vec<u64>,
    ends: Vec<u32>,
    z: Vec<u64>,
    m: Vec<u64>,
    t: Vec<u64>,
    tm: Vec<u64>,
    properties: Vec<u8>,
}

impl Library {
    pub fn new(
        alloc: Global,
        declared: u8,
        detect: bool,
        promote: bool,
    ) -> Result<Library, AllocError> {
        let mut state = [0u32; STATE_WORDS];
        bintolage::bintolage_start(&mut state, declared, u8::from(detect), u8::from(promote));
        Ok(Library {
            state,
            table: vec![in alloc; 0u8; TABLE_BYTES]?,
            xy: vec![in alloc; 0u64; XY_WORDS]?,
            ends: vec![in alloc; 0u32; WORDS]?,
            z: vec![in alloc; 0u64; WORDS]?,
            m: vec![in alloc; 0u64; WORDS]?,
            t: vec![in alloc; 0u64; WORDS]?,
            tm: vec![in alloc; 0u64; WORDS]?,
            properties: vec![in alloc; 0u8; PROPERTY_BYTES]?,
        })
    }

    // The number of the feature in hand, 0 where there is none.
    pub fn feature(&self) -> u32 {
        feature_of(&self.state)
    }

    // How many property bytes the feature in hand has.
    pub fn property_bytes(&self) -> u32 {
        self.state[PROPERTIES]
    }

    // The property bytes of the feature in hand.
    pub fn properties(&self) -> &[u8] {
        let used = self.property_bytes() as usize;
        self.properties.get(..used).unwrap_or(&[])
    }

    pub fn event(&mut self, event: &[u8]) -> Result<(), Refused> {
        Refused::outcome(bintolage::bintolage_event(
            &mut self.state,
            event,
            &mut self.table,
            &mut self.xy,
            &mut self.ends,
            &mut self.z,
            &mut self.m,
            &mut self.t,
            &mut self.tm,
        ))
    }

    pub fn property(
        &mut self,
        column: u32,
        kind: u8,
        bits: u64,
        text: &[u8],
    ) -> Result<(), BadValue> {
        let mut place = 0;
        let number = bintolage::bintolage_property(
            &mut self.state,
            column,
            kind,
            bits,
            text,
            &mut self.properties,
            &mut place,
        );
        Refused::outcome(number).map_err(|refused| BadValue { refused, place })
    }

    pub fn finish(&mut self) -> Result<(), Refused> {
        Refused::outcome(bintolage::bintolage_finish(
            &mut self.state,
            &mut self.table,
            &self.xy,
            &self.ends,
            &self.z,
            &self.m,
            &self.t,
            &self.tm,
        ))
    }

    // Leaves the feature in hand behind.
    pub fn leave(&mut self) -> Result<(), Refused> {
        Refused::outcome(bintolage::bintolage_next(
            &mut self.state,
            &self.table,
            &mut self.xy,
            &mut self.ends,
            &mut self.z,
            &mut self.m,
            &mut self.t,
            &mut self.tm,
        ))
    }

    // Reads the feature back under its number, as so many events from the log's start on.
    pub fn read(&self, flags: u8, log: &mut [u8]) -> Result<usize, Unread> {
        let mut count = 0u32;
        let number = bintolage::bintolage_read(
            &self.table,
            &self.xy,
            &self.ends,
            &self.z,
            &self.m,
            &self.t,
            &self.tm,
            declared_of(&self.state),
            flags,
            self.feature(),
            log,
            &mut count,
        );
        let count = count as usize;
        match Refused::outcome(number) {
            Ok(()) => Ok(count),
            Err(refused) => Err(Unread { refused, count }),
        }
    }

    pub fn edges(&self) -> Result<Edges, Refused> {
        let mut edges = [0u64; 4];
        let number = bintolage::bintolage_box(
            &self.table,
            &self.xy,
            &self.ends,
            &self.z,
            &self.m,
            &self.t,
            &self.tm,
            ROOT,
            &mut edges,
        );
        let [least_x, least_y, greatest_x, greatest_y] = edges;
        Refused::outcome(number)?;
        Ok(Edges {
            least_x,
            least_y,
            greatest_x,
            greatest_y,
        })
    }

    // Reads the properties back by the columns' types, as so many values from the log's start on.
    pub fn read_properties(&self, types: &[u8], log: &mut [u8]) -> Result<usize, Refused> {
        let mut count = 0u32;
        let mut stopped = 0u8;
        let mut place = 0;
        let number = bintolage::bintolage_read_properties(
            self.properties(),
            1,
            types,
            NO_STOP,
            log,
            &mut count,
            &mut stopped,
            &mut place,
        );
        Refused::outcome(number)?;
        Ok(count as usize)
    }
}
