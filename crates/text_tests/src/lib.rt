//! Worked rows of texts: bytes, sources, names, numbers, escapes, fields, lines, expressions, lists of references, scan outputs, closures, commands,
//! replies, messages as a person is shown them, pages of builds, patterns and projects; and of graph files: their tokens, what is read and what is
//! refused, chosen paths, and how nodes are written. It holds tests alone.
#![tactic(auto)]

#[cfg(test)]
mod checks;
#[cfg(test)]
mod closure;
#[cfg(test)]
mod commands;
#[cfg(test)]
mod escapes;
#[cfg(test)]
mod expressions;
#[cfg(test)]
mod fields;
#[cfg(test)]
mod globs;
#[cfg(test)]
mod labels;
#[cfg(test)]
mod lines;
#[cfg(test)]
mod names;
#[cfg(test)]
mod nodes;
#[cfg(test)]
mod numbers;
#[cfg(test)]
mod pages;
#[cfg(test)]
mod paths;
#[cfg(test)]
mod projects;
#[cfg(test)]
mod references;
#[cfg(test)]
mod refused;
#[cfg(test)]
mod replies;
#[cfg(test)]
mod samples;
#[cfg(test)]
mod seqs;
#[cfg(test)]
mod shown;
#[cfg(test)]
mod sources;
#[cfg(test)]
mod tokens;
#[cfg(test)]
mod units;
#[cfg(test)]
mod wanted;
