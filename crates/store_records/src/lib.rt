//! The records of a store file, written and read.
#![tactic(auto)]

mod batches;
mod calls;
mod contents;
mod fields;
mod groups;
mod items;
mod node_records;
mod nodes;
mod places;
mod recorded;

pub use batches::{write_batch, write_items};
pub use object_values::{
    Item, StoredCall, StoredDep, StoredOutcome, StoredOutput, StoredPart, StoredRecord,
};
pub use recorded::Recorded;
