//! What is kept, in memory: contents, each once, the calls with their outcomes, where they are well formed and fit, and the records of nodes. An item of the
//! store file is taken in as it is read, and a batch is made whole, with all memory that its taking in needs, before it is written.
#![tactic(auto)]

mod call_table;
mod calls;
mod item_sizes;
mod kept;
mod live;
mod live_batches;
mod live_sizes;
mod loaded;
mod loading;
mod looks;
mod outcomes;
mod prepared;
mod preparing;
mod records;

pub use calls::is_well_formed;
pub use kept::{Kept, KeptCall};
pub use live::LiveCopy;
pub use loaded::Loaded;
pub use looks::Looks;
pub use outcomes::fits;
pub use prepared::Prepared;
