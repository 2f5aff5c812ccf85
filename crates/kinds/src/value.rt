// A property's value as its log record has it: the word is the value's bits, or where its bytes start.
#[derive(Clone, Copy, Debug, PartialEq, Eq)]
pub struct Value {
    pub column: u16,
    pub kind: u8,
    pub len: u32,
    pub word: u64,
}
