// The commands of a session.
use crate::names::Name;
use object_values::Bytes;

/// A command, by its line: one variant a row of the table of commands in docs/user/reference.md.
#[derive(Drop)]
pub enum Command {
    /// The bytes after the line, so many, are the new text of the source.
    Put(Name, u64),
    /// The file of this name in the tree is the new text.
    Take(Name),
    /// The source is taken out.
    Remove(Name),
    /// The object of this text is asked for.
    Ask(Bytes),
    /// The steps of this text are asked for.
    Plan(Bytes),
    Sources,
    Kept,
    Quit,
    /// An empty line.
    Nothing,
    /// None of the other commands.
    Bad,
    /// A command whose word for a name is none, and how many bytes after its line are passed over.
    BadName(u64),
}
