//! Runs the writer, by the exported calls, on the rows of calls of standard input, which oracle/lists/writer.py makes and lays out, and
//! counts what differs.
#![tactic(auto)]

use replay::{Differences, Program, Tally};
use std::alloc::AllocError;
use writer_calls::{Call, Sort};
use writer_replay::Row;

const LONGEST_FRAME: usize = 16384;

#[derive(Drop)]
struct Writer {
    row: Row,
}

impl Program for Writer {
    type Sort = Sort;

    // A case is run as often as it says, and counted once, when it is run for the last time. What differs earlier is counted at once. A
    // case of 0 times is run once, and not as if for the last time.
    fn answer(&mut self, rt: &impl Print, case: &[u8], tally: &mut Tally) {
        let call = Call::new(case);
        for left in (0..call.times.max(1)).rev() {
            let differences = self.row.run(&call, left == 0 && call.times > 0);
            if left == 0 || differences != Differences::NONE {
                tally.count(rt, call.sort, differences);
            }
        }
    }
}

fn main(rt: HostRuntime) -> Result<(), AllocError> {
    let mut writer = Writer {
        row: Row::new(rt.alloc())?,
    };
    replay::run(&rt, &Sort::ALL, LONGEST_FRAME, &mut writer)
}
