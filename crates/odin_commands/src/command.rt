// What a session asks of a command before it serves it.
ghost use Rattle.std.specs.Prelude.{◌≡◌};
ghost use Rattle.meaning_commands.specs.Commands as meaning;

use odin_bytes::Command;

/// How many bytes after its line belong to a command, whether they are a text or passed over.
pub fn body_size(command: &Command) -> u64
    ensures { result ≡ meaning.bytes_after_line command.now }
{
    match command {
        Command::Put(_, count) => *count,
        Command::BadName(count) => *count,
        _ => 0,
    }
}

/// Whether a command is the last one that is read.
pub fn ends_run(command: &Command) -> bool
    ensures { result ≡ meaning.ends_run command.now }
{
    matches!(command, Command::Quit)
}
