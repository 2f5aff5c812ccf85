// An event that is blocked.
ghost use Rattle.std.specs.Prelude.{◌≡◌};
ghost use Rattle.kinds.specs.Refusal.{number_of};
ghost use Rattle.runs.specs.Plain.{blocked_by};

use kinds::refusal::Refusal;

// Why an event is refused, where `own` says whether it is of the feature in hand.
pub fn why_blocked(waiting: bool, own: bool) -> Refusal
    ensures { number_of result ≡ blocked_by waiting own }
{
    if waiting {
        Refusal::NotItsTurn
    } else if own {
        Refusal::NoRoom
    } else {
        Refusal::OtherFeature
    }
}
