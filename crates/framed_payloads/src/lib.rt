//! Payloads as they are written: each in one buffer with its length before it and a closed gate after it.
#![tactic(auto)]

mod payload;

pub use payload::FramedPayload;
