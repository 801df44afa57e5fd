//! Builds of projects over objects in memory: worked rows of what is built, refused or fails, of words, sources and targets, and of documents with kits.
//! It holds tests alone.
#![tactic(auto)]

#[cfg(test)]
mod building;
#[cfg(test)]
mod builds;
#[cfg(test)]
mod kits;
#[cfg(test)]
mod outputs;
#[cfg(test)]
mod refused;
#[cfg(test)]
mod sources;
#[cfg(test)]
mod targets;
#[cfg(test)]
mod words;
