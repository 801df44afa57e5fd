// Laws over whole sessions and whole runs.
ghost use Rattle.odin_shell.specs.Complete.{RunsComplete};
ghost use Rattle.odin_shell.specs.Fresh.{RunIsFresh};
ghost use Rattle.odin_shell.specs.Objects.{views};
ghost use Rattle.odin_shell.specs.Once.{NeverTwice, AnswersSurvive, RecordsSurvive};

use odin_answers::laws::asked_again;
use odin_outside::{Disk, Sink, Source, Spawner, Tree};
use odin_store::laws::one_offset;
use odin_words::laws::asked_is_one;

/// Where the tools answer by a table, and what was kept is what it gives, the replies of a session are those of a machine that keeps no
/// outcome: each object is that of the table, derived with nothing kept.
pub fn run_is_fresh()
    ensures { RunIsFresh }
{}

/// Over a session no tool was run twice to its end for the same inputs: what came of tools is of calls that weren't kept, each once, and
/// a log that the tools tell has the ends of just these.
pub fn never_twice()
    ensures { NeverTwice }
{}

/// What was answered and acknowledged stays answered: whatever image a crash leaves at an exit, over what it stands for, and the sources of
/// then, the text is answered at once, with nothing run.
pub fn answers_survive<D: Disk>()
    ensures { AnswersSurvive D.Disk }
{
    asked_again();
}

/// What was answered and acknowledged has its record: whatever image a crash leaves at an exit, what it stands for has a record of the node
/// of each object that was answered, unless that is a source.
pub fn records_survive<D: Disk>()
    ensures { RecordsSurvive D.Disk }
{}

/// A run comes to its end with all replies written, where its words, its graph, its store and its input are sound, and no fault is counted:
/// but for want of memory, and for a store that is full.
pub fn runs_complete<I: Source, O: Sink, T: Tree, S: Spawner, D: Disk>()
    ensures { let means = views I.Source O.Sink T.Tree S.Spawner D.Disk in
        RunsComplete means }
{
    asked_is_one();
    one_offset();
}
