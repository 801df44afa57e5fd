// Which bytes after its line a command keeps.
ghost use Rattle.std.specs.Prelude.{◌≡◌};
ghost use Rattle.odin_shell.specs.Language as language;

use odin_answers::TEXT_LIMIT;
use odin_commands::Command;

/// Whether the bytes after its line are kept, and not passed over.
pub(crate) fn keeps_body(command: &Command) -> bool
    ensures { result ≡ language.keeps_body command.now }
{
    match command {
        Command::Put(_, count) => *count <= TEXT_LIMIT,
        _ => false,
    }
}
