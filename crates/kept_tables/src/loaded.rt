// What the reading of an item gives.
use object_values::{Bytes, Text};

/// What an item brings. A text is shared with the tables.
#[derive(Drop)]
pub enum Loaded {
    /// The text of a graph, which the tables don't keep.
    Graph(Bytes),
    /// The next content.
    Content,
    /// A source with its text.
    Put(Bytes, Text),
    /// A source that is gone.
    Dropped(Bytes),
    /// A kept call.
    CallKept,
    /// The record of a node, by its place in the tables.
    Noted(u64),
}
