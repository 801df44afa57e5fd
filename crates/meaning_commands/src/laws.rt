//! Laws of commands. Each is the contract of a function with an empty body.
ghost use Rattle.meaning_commands.specs.Laws.{CommandIsExact, LineIsOneCommand};

/// A line is the computed command, and no other.
pub fn command_is_exact()
    ensures { CommandIsExact }
{}

/// A line is one command.
pub fn line_is_one_command()
    ensures { LineIsOneCommand }
{}
