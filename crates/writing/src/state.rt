// A writer's state: small numbers by value, handed in and handed back.
use asking::typing::Typing;
use pending::words::Pending;

#[derive(Clone, Copy, Debug, PartialEq, Eq)]
pub struct State {
    pub typing: Typing,
    pub waiting: bool,
    pub parts: u32,
    pub properties: u32,
    // The number that the first accepted event had, and every other must have.
    pub feature: Option<u32>,
    pub pending: Pending,
}
