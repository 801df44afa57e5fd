//! Sessions over objects in memory: worked rows of inputs, words, graphs, tools and loads, and of nodes that are derived over graphs of every kind. It
//! holds tests alone.
#![tactic(auto)]

#[cfg(test)]
mod derived;
#[cfg(test)]
mod graphs;
#[cfg(test)]
mod inputs;
#[cfg(test)]
mod loads;
#[cfg(test)]
mod runs;
#[cfg(test)]
mod words;
