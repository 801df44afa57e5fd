//! Laws of the lines of messages. Each is the contract of a function with an empty body.
ghost use Rattle.build_files.specs.LineLaws.{LabelledLineTellsMessage, LineTellsText};

/// A line tells its text, but for a `./` in front.
pub fn line_tells_text()
    ensures { LineTellsText }
{}

/// A line with its label tells the message.
pub fn labelled_line_tells_message()
    ensures { LabelledLineTellsMessage }
{}
