//! Worked rows of the objects in memory, of the journal over a disk that stops anywhere, of jobs and outcomes, of the toy tools, of tools in memory, and of
//! inherited messages. It holds tests alone.
#![tactic(auto)]

#[cfg(test)]
mod calls;
#[cfg(test)]
mod disks;
#[cfg(test)]
mod flights;
#[cfg(test)]
mod journals;
#[cfg(test)]
mod messages;
#[cfg(test)]
mod objects;
#[cfg(test)]
mod outcomes;
#[cfg(test)]
mod pieces;
#[cfg(test)]
mod rewrites;
#[cfg(test)]
mod spawners;
#[cfg(test)]
mod texts;
#[cfg(test)]
mod toys;
