//! What every crate stands on: lists that contracts see as lists, want of memory, copies, and equality.
#![tactic(auto)]

mod bytes;
mod copied;
mod done;
mod exact;
mod memory;
mod seq;
mod shared_seq;
mod short_seq;

pub use bytes::Bytes;
pub use copied::{Copied, copy_five, copy_two};
pub use done::when_done;
pub use exact::{Exact, same};
pub use memory::Memory;
pub use seq::Seq;
pub use shared_seq::SharedSeq;
pub use short_seq::ShortSeq;
