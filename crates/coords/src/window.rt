// The stretch of the xy list that a walk goes over: from pair to pair, doubled to words.
ghost use Rattle.std.specs.Prelude.{◌≤◌, ◌<◌};
ghost use Rattle.kinds.specs.Refusal.{answer_of};
ghost use Rattle.coords.specs.Views.{Windowed};

use crate::lists::Window;
use kinds::refusal::Refusal;

// The pairs from number `from` to number `to` of a list of words, as far as it has them.
pub fn between<'a>(xy: Option<&'a [u64]>, from: u32, to: u32) -> Window<'a, Result<(), Refusal>>
    requires { (from ≤ to) × (to < 2147483648) }
    ensures { Windowed answer_of xy.entry from to result }
{
    let Some(xy) = xy else {
        return Window {
            words: &[],
            from,
            last: Err(Refusal::XyAbsent),
        };
    };
    let start = xy.len().min(2 * (from as usize));
    let end = xy.len().min(2 * (to as usize));
    let cut = (from < to) & (xy.len() < 2 * (to as usize));
    Window {
        words: &xy[start..end],
        from,
        last: if cut { Err(Refusal::PastList) } else { Ok(()) },
    }
}
