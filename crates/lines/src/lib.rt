// The lines of a record: stretches of its pairs from each end to the next, or the whole list as one.
#![tactic(auto)]

mod lines;

pub use lines::{
    nothing_there, read_line, read_multilinestring, read_multilinestring_part, read_stretches,
    stretches,
};
