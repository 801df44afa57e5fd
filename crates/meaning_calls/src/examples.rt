//! Worked examples of the definitions. Each is the contract of a function with an empty body.
ghost use Rattle.meaning_calls.specs.Examples.{JobsOfCalls, EndsOfATool, FilesOfATool, LongOutputs, LongWarnings, SeveralOutputs};

/// The jobs of some calls, byte for byte.
pub fn jobs_of_calls()
    ensures { JobsOfCalls }
{}

/// The outcome at each end of a tool.
pub fn ends_of_a_tool()
    ensures { EndsOfATool }
{}

/// What counts of the files that a tool leaves.
pub fn files_of_a_tool()
    ensures { FilesOfATool }
{}

/// Outputs at the limit of their length.
pub fn long_outputs()
    ensures { LongOutputs }
{}

/// Messages past the limits of their length and number.
pub fn long_warnings()
    ensures { LongWarnings }
{}

/// Calls with two outputs.
pub fn several_outputs()
    ensures { SeveralOutputs }
{}
