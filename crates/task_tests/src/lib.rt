//! Worked rows of single nodes over literal results: their needs, the calls of their tools, and what they settle to. It holds tests alone.
#![tactic(auto)]

#[cfg(test)]
mod apart;
#[cfg(test)]
mod closures;
#[cfg(test)]
mod derived;
#[cfg(test)]
mod extras;
#[cfg(test)]
mod graphs;
#[cfg(test)]
mod held;
#[cfg(test)]
mod lists;
#[cfg(test)]
mod messages;
#[cfg(test)]
mod missing;
#[cfg(test)]
mod packs;
#[cfg(test)]
mod refused;
#[cfg(test)]
mod rows;
#[cfg(test)]
mod shown;
