// Several tools at once.
mod chains;
mod faults;
mod full;
mod orders;
mod project;
