// How far a call with many events came.
use kinds::refusal::Refusal;
use writing::state::State;

// How many records a call took, the state after the last of them, and why it took no more.
#[derive(Clone, Copy)]
pub struct Took {
    pub taken: usize,
    pub state: State,
    pub answer: Result<(), Refusal>,
}
