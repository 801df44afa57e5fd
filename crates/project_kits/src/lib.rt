//! A project with kits: which files are made for it, and the project of those and of the files that were found.
#![tactic(auto)]

mod entries;
pub mod examples;
pub mod joined;
pub mod lists;
pub mod plain;
pub mod reading;
pub mod settings;
pub mod tree;
mod units;
pub mod wanted;
