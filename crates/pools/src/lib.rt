// The pools that a writer is lent, and what an accepted call changes: one function for each lent slice.
#![tactic(auto)]

mod pools_mut;

ghost use Rattle.std.specs.Prelude.{◌≡◌, true, cond, [], ◌∷◌, ◌+◌, ◌≤◌, ◌<◌, length};
ghost use Rattle.std.proofs.lemmas.List.Edits.{sets};
ghost use Rattle.store.specs.Records.{records_lent, put_record};
ghost use Rattle.pending.specs.Words.{used};
ghost use Rattle.writing.specs.Calls.{table_after, root_of, moved};
ghost use Rattle.pending.specs.Room.{Fits};

use asking::ask::Ask;
use pending::growth::grown_all;
use pending::part::part_of;
use pending::words::Words;
pub use pools_mut::PoolsMut;
use writing::root::root_of;
use writing::state::State;

// Part i is record i + 1.
#[tactic(auto, unfolding(writing::specs::Calls::table_after))]
pub fn finish_part(table: &mut [u8], s: State, a: Ask)
    requires room { a.part ≡ true → s.parts + 2 ≤ records_lent table.old }
    requires fits { Fits s.pending a.added }
    ensures { table.new ≡ table_after s a table.old }
{
    if a.part {
        let part = part_of(s.typing.current, grown_all(s.pending, a.added));
        store::put_record(table, (s.parts as usize) + 1, part);
    }
}

pub fn put_root(table: &mut [u8], s: State)
    requires { 0 < records_lent table.old }
    ensures { table.new ≡ put_record table.old 0 (root_of s) }
{
    store::put_record(table, 0, root_of(s));
}

pub fn push_pair(pool: &mut [u64], p: Words, on: bool, x: u64, y: u64)
    requires { used p + cond on 2 0 ≤ length pool.old }
    ensures { pool.new ≡ sets pool.old (used p) (cond on (x ∷ y ∷ []) []) }
{
    if on {
        let at = p.used();
        pool[at] = x;
        pool[at + 1] = y;
    }
}

// A value, or an end.
pub fn push_word<T: Copy>(pool: &mut [T], p: Words, on: bool, word: T)
    requires { used p + cond on 1 0 ≤ length pool.old }
    ensures { pool.new ≡ sets pool.old (used p) (cond on (word ∷ []) []) }
{
    if on {
        pool[p.used()] = word;
    }
}

// The pending words go to the front.
pub fn move_words<T: Copy>(pool: &mut [T], p: Words)
    requires { used p ≤ length pool.old }
    ensures { pool.new ≡ moved pool.old p.start p.count }
{
    pool.copy_within(p.start as usize..p.used(), 0);
}
