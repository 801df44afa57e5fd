// A command that lacks some of the bytes after its line.
ghost use Rattle.std.specs.Prelude.{◌≡◌, ◌+◌, ◌<◌, ◌≤◌, length};
ghost use Rattle.meaning_texts.specs.Limits.{body_limit};
ghost use Rattle.odin_shell.specs.Language.{kept_of};

use object_values::Bytes;
use odin_commands::Command;

/// A command that lacks some of the bytes after its line: those that are there, where it keeps them, and how many are missing.
pub(crate) struct Pending {
    pub(crate) command: Command,
    pub(crate) text: Bytes,
    pub(crate) missing: u64,
    ghost lacks: { 0 < missing },
    ghost short: { length text + kept_of command missing ≤ body_limit },
}

impl Drop for Pending {
    fn drop(self) {
        let Pending {
            command,
            text,
            missing: _,
        } = self;
        drop(command);
        drop(text);
    }
}

impl Pending {
    /// The command, and what is held of its bytes.
    pub(crate) fn into_parts(self) -> (Command, Bytes)
        ensures command { result.0 ≡ self.command }
        ensures text { result.1 ≡ self.text }
        ensures short { length result.1 + kept_of result.0 self.missing ≤ body_limit }
    {
        let Pending {
            command,
            text,
            missing: _,
        } = self;
        (command, text)
    }
}
