// A command that is whole.
ghost use Rattle.std.specs.Prelude.{◌≡◌, ◌≤◌, length};
ghost use Rattle.meaning_texts.specs.Limits.{body_limit};

use object_values::Bytes;
use odin_commands::Command;

/// A command, with the bytes after its line, where it keeps them.
pub(crate) struct Whole {
    pub(crate) command: Command,
    pub(crate) body: Bytes,
    ghost short: { length body ≤ body_limit },
}

impl Drop for Whole {
    fn drop(self) {
        let Whole { command, body } = self;
        drop(command);
        drop(body);
    }
}

impl Whole {
    /// The command, and its bytes.
    pub(crate) fn into_parts(self) -> (Command, Bytes)
        ensures command { result.0 ≡ self.command }
        ensures body { result.1 ≡ self.body }
    {
        let Whole { command, body } = self;
        (command, body)
    }
}
