use crate::frames::Frames;
use crate::tally::Sorted;
use crate::{Differences, Tally};
use std::alloc::AllocError;

/// What answers a case of some sort.
pub trait Program {
    type Sort: Sorted;

    /// Answers a case, and counts it.
    fn answer(&mut self, rt: &impl Print, case: &[u8], tally: &mut Tally);
}

/// Answers each case of standard input, and prints what differs and what was counted. An input that is cut counts as a case that
/// differs, and so does a frame that is longer than the longest. All memory is taken before the first case is read.
pub fn run<P: Program>(
    rt: &(impl Input + Print + AllocGlobal),
    sorts: &[P::Sort],
    longest: usize,
    program: &mut P,
) -> Result<(), AllocError> {
    let room = vec![in rt.alloc(); 0u8; longest]?;
    let mut frames = Frames::new(rt.reader(), room);
    let mut tally = Tally::NONE;
    for _ in 0..u64::MAX {
        match frames.next_case() {
            Ok(Some(case)) => program.answer(rt, case, &mut tally),
            Ok(None) => break,
            Err(_) => {
                tally.count(rt, None::<P::Sort>, Differences::CASE);
                break;
            }
        }
    }
    tally.report(rt, sorts);
    Ok(())
}
