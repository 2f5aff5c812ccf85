// Prints the numbers of standard input in decimal, one to a line: oracle/lists/decimals.py makes them, and what is to be printed.
#![tactic(auto)]

use console::{Double, Float};
use std::io;
use std::io::Read;

// A letter, then eight bytes, of which a float has the first four.
const RECORD_BYTES: usize = 9;

fn print_number(rt: &impl Print, record: [u8; RECORD_BYTES]) -> io::Result<()> {
    let [letter, a, b, c, d, e, f, g, h] = record;
    if letter == b'f' {
        println!(rt; "{}", Float(u32::from_le_bytes([a, b, c, d])))
    } else {
        println!(rt; "{}", Double(u64::from_le_bytes([a, b, c, d, e, f, g, h])))
    }
}

// Nothing says that the input ends, so the numbers are counted to a number that no list comes to. The list ends where it cannot be read,
// and a line that cannot be written is passed over.
fn main(rt: HostRuntime) {
    let mut input = rt.reader();
    let mut record = [0u8; RECORD_BYTES];
    for _ in 0..u64::MAX {
        if input.read_exact(&mut record).is_err() {
            break;
        }
        let _ = print_number(&rt, record);
    }
}
