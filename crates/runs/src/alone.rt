// A pair given by itself, the commonest call by far: the state stays in registers. It is what a run of one pair comes to.
ghost use Rattle.std.specs.Prelude.{◌≡◌, cond, ◌&&◌, [], ◌∷◌, length};
ghost use Rattle.std.proofs.lemmas.List.Edits.{sets};
ghost use Rattle.pending.specs.Words.{used};
ghost use Rattle.writing.specs.State.{wrote, wrote_of};
ghost use Rattle.writing.specs.Feature.{belongs};
ghost use Rattle.runs.specs.Plain.{blocked_number, amid};
ghost use Rattle.runs.specs.Run.{pair_room, with_pair};

use crate::blocked::why_blocked;
use kinds::lanes::Lanes;
use kinds::refusal::Refusal;
use kinds::usable;
use pending::room::lane_room;
use pending::words::Words;
use writing::feature::belongs;
use writing::state::State;

pub fn take_alone(
    s: State,
    n: u32,
    ready: bool,
    x: u64,
    y: u64,
    xy: &mut [u64],
) -> Result<State, Refusal>
    ensures answer { let room = belongs s.feature n && ready && pair_room s.pending (length xy.old) in
        wrote_of s result ≡ cond room (wrote 0 (amid s n (with_pair s.pending))) (wrote (blocked_number s n) s) }
    ensures words { let room = belongs s.feature n && ready && pair_room s.pending (length xy.old) in
        xy.new ≡ cond room (sets xy.old (used s.pending.xy) (x ∷ y ∷ [])) xy.old }
{
    let own = belongs(s.feature, n);
    if !(own & ready & lane_room(s.pending.xy, true, Words::PAIR, xy.len(), usable::XY_WORDS)) {
        return Err(why_blocked(s.waiting, own));
    }
    pools::push_pair(xy, s.pending.xy, true, x, y);
    let xy = s.pending.xy.grown(Words::PAIR);
    Ok(State {
        feature: Some(n),
        pending: Lanes { xy, ..s.pending },
        ..s
    })
}
