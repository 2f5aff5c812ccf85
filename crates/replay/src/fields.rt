/// What is left of a case, taken from its front: numbers of four bytes, words of eight, and bytes. What a case does not have is zero,
/// or empty.
#[derive(Clone, Copy)]
pub struct Fields<'a> {
    rest: &'a [u8],
}

impl<'a> Fields<'a> {
    pub fn new(case: &'a [u8]) -> Fields<'a> {
        Fields { rest: case }
    }

    fn array<const N: usize>(&mut self) -> [u8; N] {
        match self.rest.split_first_chunk::<N>() {
            Some((first, rest)) => {
                self.rest = rest;
                *first
            }
            None => {
                self.rest = &[];
                [0; N]
            }
        }
    }

    pub fn byte(&mut self) -> u8 {
        let [byte] = self.array::<1>();
        byte
    }

    pub fn number(&mut self) -> u32 {
        u32::from_le_bytes(self.array::<4>())
    }

    /// A number below 256.
    pub fn small_number(&mut self) -> u8 {
        let [low, ..] = self.array::<4>();
        low
    }

    /// A number that is 1 for yes.
    pub fn flag(&mut self) -> bool {
        self.number() == 1
    }

    pub fn word(&mut self) -> u64 {
        u64::from_le_bytes(self.array::<8>())
    }

    /// Numbers, as many as there are, each as its bytes.
    pub fn numbers(&mut self, count: u32) -> &'a [[u8; 4]] {
        self.bytes(4 * count as usize).as_chunks::<4>().0
    }

    pub fn bytes(&mut self, count: usize) -> &'a [u8] {
        let (first, rest) = self.rest.split_at(count.min(self.rest.len()));
        self.rest = rest;
        first
    }

    pub fn rest(self) -> &'a [u8] {
        self.rest
    }
}
