// Laws over inputs and sessions.
ghost use Rattle.odin_shell.specs.Crashes.{ImagesHoldOurs};
ghost use Rattle.odin_shell.specs.Laws.{InputIsCutOnce, SourcesStay, EachIsOpened, OpenedIsOne, HeldIsMade, KeptStaysTrue, RecordsStayTrue, RefusalsAreCounted, TranscriptIsOne, TrustIsMet};

use odin_outside::Disk;

/// An input is cut into commands in one way only.
pub fn input_is_cut_once()
    ensures { InputIsCutOnce }
{}

/// Each graph file is one of a checked graph, or is refused by a last line.
pub fn each_file_is_opened()
    ensures { EachIsOpened }
{}

/// A graph file is opened in one way only: by one graph, or by one last line. So 2 excludes every session over it.
pub fn opened_is_one()
    ensures { OpenedIsOne }
{}

/// The sources of a session are always names with texts of at most 16,777,216 bytes.
pub fn sources_stay_sources()
    ensures { SourcesStay }
{}

/// What a session holds is what its changes made of what its file stood for.
pub fn held_is_made()
    ensures { HeldIsMade }
{}

/// Where the tools answer by a table, and what was kept is what it gives, that stays so.
pub fn kept_stays_true()
    ensures { KeptStaysTrue }
{}

/// Where what was held of nodes is true, it stays true.
pub fn records_stay_true()
    ensures { RecordsStayTrue }
{}

/// Where what was held of nodes at the start is true, all that is said of replies to asks is said without that condition.
pub fn trust_is_met()
    ensures { TrustIsMet }
{}

/// There are at most as many replies `refused tool start` as the count of the tools' faults rose, and at most as many `refused read` as
/// that of the tree rose.
pub fn refusals_are_counted()
    ensures { RefusalsAreCounted }
{}

/// Where the tools answer by a table, the tree tells its files and no fault of either is counted, an input has one transcript, whatever is
/// kept and however many tools may run at once, but for the chains that refusals show and the number of kept calls. Where the same calls are
/// kept, the same are run.
pub fn transcript_is_one()
    ensures { TranscriptIsOne }
{}

/// Whenever a session is stopped, each image that a crash may leave stands for what the first of its changes made, with all that are
/// acknowledged; and each call that is kept in it was kept at the start, or is one of the node of an ask of the session. Where the tools answer
/// by a table, all of them are true, and those that were not kept at the start are calls of their nodes by the table. What it has of nodes
/// is true where it was at the start.
pub fn images_hold_calls_of_asks<D: Disk>()
    ensures { ImagesHoldOurs D.Disk }
{}
