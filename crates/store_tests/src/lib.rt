//! Worked rows of contents by number, of the records of a store file, of the tables of what is kept, and of the store: sessions and rewritings over disks
//! that stop or fail anywhere, and files that aren't ours. It holds tests alone.
#![tactic(auto)]

#[cfg(test)]
mod contents;
#[cfg(test)]
mod crashes;
#[cfg(test)]
mod given;
#[cfg(test)]
mod given_notes;
#[cfg(test)]
mod hostile;
#[cfg(test)]
mod images;
#[cfg(test)]
mod kept;
#[cfg(test)]
mod node_records;
#[cfg(test)]
mod noted;
#[cfg(test)]
mod noting;
#[cfg(test)]
mod numbered;
#[cfg(test)]
mod numbers;
#[cfg(test)]
mod record_tables;
#[cfg(test)]
mod records;
#[cfg(test)]
mod rewriting;
#[cfg(test)]
mod room;
#[cfg(test)]
mod sessions;
