// The words of a ring.
ghost use Rattle.std.specs.Prelude.{◌≤◌, length};

#[derive(Clone, Copy)]
pub struct Ring<'a> {
    pub xy: &'a [u64],
    pub ghost few_words: { length xy.now ≤ 131072 },
}
