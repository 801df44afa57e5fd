//! Worked examples of references, picks, needs and calls. Each is the contract of a function with an empty body.
ghost use Rattle.meaning_tasks.specs.Examples.{References, LineParameters, Onward, PickPastTheEnd, Closures, FirstNeeds, WholeCall, Slots, NotRun, Roles, ReachedAddNothing, Extras, Packs};

/// Lines of a reference list.
pub fn references()
    ensures { References }
{}

/// The parameters of a line.
pub fn line_parameters()
    ensures { LineParameters }
{}

/// References led further along a path.
pub fn onward()
    ensures { Onward }
{}

/// A pick after the last element.
pub fn pick_past_the_end()
    ensures { PickPastTheEnd }
{}

/// The scan nodes and the reached sources.
pub fn closures()
    ensures { Closures }
{}

/// The needs of a base that has no value yet, of a list and of a pack.
pub fn first_needs()
    ensures { FirstNeeds }
{}

/// A call with its parameters and includes.
pub fn whole_call()
    ensures { WholeCall }
{}

/// The slots of parts.
pub fn slots()
    ensures { Slots }
{}

/// Tools that aren't run.
pub fn not_run()
    ensures { NotRun }
{}

/// Needs that are counted, and reached sources.
pub fn roles()
    ensures { Roles }
{}

/// A reached source that is absent.
pub fn reached_add_nothing()
    ensures { ReachedAddNothing }
{}

/// What extras lead to.
pub fn extras()
    ensures { Extras }
{}

/// A pack with all its parts, and one with a part to which no path leads.
pub fn packs()
    ensures { Packs }
{}
