// The store: geometry records in a lent table, over lists in lent pools. No record's bytes show above it.
#![tactic(auto)]

mod pools;
mod records;

pub use pools::{Pools, Store};
pub use records::{lone_list_at, put_record, record_at, records_lent};
