use replay::Fields;

/// Numbers as a case describes them, so that a large tree takes a small case: a head, then a group over and over, then what stands behind
/// it, to the case's end, then zeros. In each turn a number of the group is larger than in the turn before, by its step.
#[derive(Clone, Copy)]
pub struct Row<'a> {
    head: &'a [[u8; 4]],
    // How many numbers the group has, of which those that the case does not have are zero.
    group_count: usize,
    group: &'a [[u8; 4]],
    steps: &'a [[u8; 4]],
    // How many numbers all the turns have.
    turns: usize,
    tail: &'a [[u8; 4]],
    // How many numbers were taken.
    taken: usize,
}

impl<'a> Row<'a> {
    /// The row that is described at the start of these bytes.
    pub fn new(description: &'a [u8]) -> Row<'a> {
        let mut fields = Fields::new(description);
        let head_count = fields.number();
        let group_count = fields.number();
        let turns = fields.number() as usize;
        let _tail_count = fields.number();
        let head = fields.numbers(head_count);
        let group = fields.numbers(group_count);
        let steps = fields.numbers(group_count);
        Row {
            head,
            group_count: group_count as usize,
            group,
            steps,
            turns,
            tail: fields.rest().as_chunks::<4>().0,
            taken: 0,
        }
    }

    fn number_at(&self, at: usize) -> u32 {
        let Some(past_head) = at.checked_sub(self.head.len()) else {
            return number_in(self.head, at);
        };
        match past_head.checked_sub(self.turns) {
            Some(past_turns) => number_in(self.tail, past_turns),
            None => self.in_turn(past_head),
        }
    }

    fn in_turn(&self, at: usize) -> u32 {
        if self.group_count == 0 {
            return 0;
        }
        let place = at % self.group_count;
        let turn = (at / self.group_count % 65536) as u32;
        // A step is 0, 1, 2 or 4, and a larger one is 4 too.
        let step = match number_in(self.steps, place) {
            step if step < 3 => step,
            _ => 4,
        };
        number_in(self.group, place).wrapping_add(step.wrapping_mul(turn))
    }

    /// The next number.
    pub fn number(&mut self) -> u32 {
        let number = self.number_at(self.taken);
        self.taken = self.taken.saturating_add(1);
        number
    }

    /// The next two numbers, as one.
    pub fn word(&mut self) -> u64 {
        let low = u64::from(self.number());
        let high = u64::from(self.number());
        low | high << 32
    }
}

fn number_in(numbers: &[[u8; 4]], at: usize) -> u32 {
    numbers
        .get(at)
        .map_or(0, |number| u32::from_le_bytes(*number))
}
