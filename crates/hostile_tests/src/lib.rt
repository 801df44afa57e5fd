//! Hostile use of whole sessions over objects in memory: files, inputs and answers of tools at the limits, records that lie, and each call that fails and
//! each stop while several tools run or a batch of records is written. It holds tests alone.
#![tactic(auto)]

#[cfg(test)]
mod batches;
#[cfg(test)]
mod calls;
#[cfg(test)]
mod lies;
#[cfg(test)]
mod limits;
#[cfg(test)]
mod records;
#[cfg(test)]
mod runs;
#[cfg(test)]
mod sessions;
#[cfg(test)]
mod stops;
