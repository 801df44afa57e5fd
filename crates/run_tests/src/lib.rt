//! Runs one after another over a store, with what each step starts, each call that fails and each stop, and whole runs over a runtime in memory. It holds
//! tests alone.
#![tactic(auto)]

#[cfg(test)]
mod compacting;
#[cfg(test)]
mod failing;
#[cfg(test)]
mod flights;
#[cfg(test)]
mod keeping;
#[cfg(test)]
mod rows;
#[cfg(test)]
mod serving;
#[cfg(test)]
mod stops;
#[cfg(test)]
mod stored;
