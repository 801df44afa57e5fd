//! Derivation over what a store keeps, several tools at a time: each call is kept as its tool ends.
#![tactic(auto)]

mod derivation;
mod fault;
mod flight;
mod landing;
pub mod laws;
mod telling;

pub use derivation::derive_kept;
pub use derive_walk::Found;
pub use fault::KeptFault;
