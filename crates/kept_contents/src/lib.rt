//! The contents of a journal in memory, each text once, with the number of each value, the ways from the numbers of a record to its texts and back, and the
//! keys by which kept calls are found.
#![tactic(auto)]

mod added;
mod copying;
mod head;
mod heads;
mod held;
mod index;
mod inputs;
mod keys;
mod numbering;
mod resolving;
mod shared;
mod table;
mod within;

pub use added::AddedContents;
pub use copying::share_contents;
pub use head::CallHead;
pub use heads::Heads;
pub use held::HeldCall;
pub use keys::{CallKey, SoughtKey};
pub use numbering::{number_text, number_value, stored_call, stored_outcome};
pub use resolving::{call_of, outcome_of};
pub use shared::{Content, Shared};
pub use table::ContentTable;
