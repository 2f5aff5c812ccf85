// The record of a finished feature's root.
ghost use Rattle.std.specs.Prelude.{◌≡◌};
ghost use Rattle.writing.specs.Calls.{root_of};

use crate::state::State;
use kinds::geometry::Geometry;
use pending::part::{part_of, root_over};

#[tactic(auto, unfolding(crate::specs::Calls::root_of))]
pub fn root_of(s: State) -> Geometry
    ensures { result ≡ root_of s }
{
    if s.parts == 0 {
        part_of(s.typing.current, s.pending)
    } else {
        root_over(s.typing.current, s.parts)
    }
}
