// A begin that sets a type, or an end, of a feature's number: what it asks for is decided, and done to the table and the ends.
#![tactic(auto)]

ghost use Rattle.std.specs.Prelude.{◌≡◌, true, cond, ◌<◌, eqb, length};
ghost use Rattle.std.proofs.lemmas.List.Edits.{sets};
ghost use Rattle.kinds.specs.Refusal.{answer_of};
ghost use Rattle.kinds.specs.Lanes.{endsL};
ghost use Rattle.store.specs.Records.{records_lent};
ghost use Rattle.pending.specs.Words.{used};
ghost use Rattle.asking.specs.Ask.{no_words, ask_of};
ghost use Rattle.writing.specs.State.{wrote_of};
ghost use Rattle.writing.specs.Calls.{gives, table_after};
ghost use Rattle.pending.specs.Room.{Fits};
ghost use Rattle.writing.specs.Other.{decide_other};

use asking::ask::ask_of;
use kinds::event::Event;
use kinds::refusal::Refusal;
use pending::growth::end_of;
use writing::decide::decide_other;
use writing::state::State;

pub fn take_other(
    s: State,
    n: u32,
    ready: bool,
    e: Event,
    table: &mut [u8],
    ends: &mut [u32],
) -> Result<State, Refusal>
    requires kind { e.kind < 64 }
    requires fits { ready ≡ true → Fits s.pending no_words }
    ensures answer { wrote_of s result ≡ decide_other s n (ask_of s.typing e) ready (records_lent table.old) (length ends.old) }
    ensures records { let a = ask_of s.typing e in
        table.new ≡ cond (eqb (answer_of result) 0) (table_after s a table.old) table.old }
    ensures words { let a = ask_of s.typing e in
        let after = sets ends.old (used s.pending.ends) (gives s a.added e endsL) in
        ends.new ≡ cond (eqb (answer_of result) 0) after ends.old }
{
    let a = ask_of(s.typing, e);
    let after = decide_other(s, n, a, ready, store::records_lent(table), ends.len())?;
    pools::finish_part(table, s, a);
    pools::push_word(ends, s.pending.ends, a.added.ends, end_of(s.pending.xy));
    Ok(after)
}
