// How the bytes after a line are held, where its command keeps them.
ghost use Rattle.std.specs.Prelude.{◌≡◌, ◌+◌, ◌-◌, ◌<◌, ◌≤◌, ◌++◌, [], true, length, IfOk};
ghost use Rattle.meaning_texts.specs.Limits.{body_limit};
ghost use Rattle.meaning_commands.specs.Commands.{bytes_after_line};
ghost use Rattle.odin_shell.specs.Language as language;
ghost use Rattle.odin_shell.specs.Held.{PendingIsNew};

use crate::command::keeps_body;
use crate::pending::Pending;
use object_values::{Bytes, Memory};
use odin_commands::{Command, body_size};
use std::alloc::Global;

// Room for the bytes that a command keeps.
fn room_for(alloc: Global, command: &Command) -> Result<Bytes, Memory>
    ensures { IfOk result (λ text. text ≡ []) }
{
    let mut text = Bytes::new(alloc);
    if !keeps_body(command) {
        return Ok(text);
    }
    text.reserve_exact(body_size(command) as usize)?;
    Ok(text)
}

impl Pending {
    /// A command that takes bytes, before the first of them.
    pub(crate) fn new(alloc: Global, command: Command) -> Result<Self, Memory>
        requires { 0 < bytes_after_line command }
        ensures { IfOk result (PendingIsNew command) }
    {
        let missing = body_size(&command);
        let text = room_for(alloc, &command)?;
        Ok(Pending {
            command,
            text,
            missing,
        })
    }

    /// The command and its bytes, with these after them, where it keeps them.
    pub(crate) fn with_bytes(self, bytes: &[u8]) -> Result<(Command, Bytes), Memory>
        requires { length bytes.now ≤ self.missing }
        ensures command { IfOk result (λ parts. parts.0 ≡ self.command) }
        ensures text { IfOk result (λ parts. language.keeps_body self.command ≡ true →
            parts.1 ≡ self.text ++ bytes.now) }
        ensures short { let left = self.missing - length bytes.now in
            IfOk result (λ parts. length parts.1 + language.kept_of parts.0 left ≤ body_limit) }
    {
        let (command, mut text) = self.into_parts();
        if keeps_body(&command) {
            text.extend_from_slice(bytes)?;
        }
        Ok((command, text))
    }

    /// The command, with these bytes held too. Some are missing still.
    pub(crate) fn hold(self, bytes: &[u8]) -> Result<Self, Memory>
        requires { length bytes.now < self.missing }
        ensures command { IfOk result (λ held. held.command ≡ self.command) }
        ensures text { IfOk result (λ held. language.keeps_body self.command ≡ true →
            held.text ≡ self.text ++ bytes.now) }
        ensures missing { IfOk result (λ held.
            held.missing + length bytes.now ≡ self.missing) }
    {
        let missing = self.missing - bytes.len() as u64;
        let (command, text) = self.with_bytes(bytes)?;
        Ok(Pending {
            command,
            text,
            missing,
        })
    }
}
