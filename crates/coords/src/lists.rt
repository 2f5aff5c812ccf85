// A record's own lists, and the stretches of them that walks go over.
ghost use Rattle.std.specs.Option.{ForSome};
ghost use Rattle.std.specs.Prelude.{◌≤◌, length};

// A record's own lists, as the flags let them be seen.
#[derive(Clone, Copy)]
pub struct Lists<'a> {
    // Whether any flag is set: a pair then has an event of its own kind, whatever stands beside it.
    pub many: bool,
    pub xy: Option<&'a [u64]>,
    pub z: Option<&'a [u64]>,
    pub m: Option<&'a [u64]>,
    pub t: Option<&'a [u64]>,
    pub tm: Option<&'a [u64]>,
    // None where the record has no list of ends.
    pub ends: &'a [u32],
    pub ghost few_words: { ForSome xy (λ l. length l.now ≤ 131072) },
    pub ghost few_ends: { length ends.now ≤ 65536 },
}

// A stretch of a record's xy words.
#[derive(Clone, Copy)]
pub struct Window<'a, A> {
    pub words: &'a [u64],
    // The number in the record of its first pair.
    pub from: u32,
    // What stands after its last pair.
    pub last: A,
}
