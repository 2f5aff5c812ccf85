use crate::memory::{Memory, checksum, clear};
use as_words::state::{PROPERTIES, STATE_WORDS, StateWords};
use replay::Differences;
use std::alloc::{AllocError, Global};
use writer_calls::{Call, Sort, make};

/// A row of calls: the state that they hand on, and the memory that they are lent.
#[derive(Drop)]
pub struct Row {
    state: StateWords,
    memory: Memory,
}

impl Row {
    pub fn new(alloc: Global) -> Result<Row, AllocError> {
        let memory = Memory::new(alloc)?;
        Ok(Row {
            state: [0; STATE_WORDS],
            memory,
        })
    }

    /// Makes a case's call, and says what differs: in its answer, and, the last time that the case is run, in what it leaves behind. What a
    /// property leaves behind is looked at each time.
    pub fn run(&mut self, call: &Call<'_>, is_last: bool) -> Differences {
        self.prepare(call);
        let answered = make(call, &mut self.state, self.memory.lend(call));
        if !is_last && call.sort != Some(Sort::Property) {
            return call.differences(answered);
        }
        self.settle(call);
        let sum = checksum(self.memory.lend(call));
        call.differences_in_all(answered, &self.state, sum)
    }

    // A feature's first property meets canaries.
    fn prepare(&mut self, call: &Call<'_>) {
        if call.sort == Some(Sort::Property) && self.state[PROPERTIES] == 0 {
            self.memory.clear_buffer();
        }
    }

    // What a row's calls are lent begins as canaries.
    fn settle(&mut self, call: &Call<'_>) {
        if call.sort == Some(Sort::Row) {
            clear(self.memory.lend(call));
        }
    }
}
