//! Laws of graphs, for every list of declarations. Each is the contract of a function with an empty body.
ghost use Rattle.meaning_graph.specs.Laws.{IsAIsReachability, SuffixIsLongest, OneIsLongest, PathIsChosen, OneIsChosen};

/// One type is another exactly where supertypes lead there.
pub fn is_a_is_reachability()
    ensures { IsAIsReachability }
{}

/// The suffix that gives a source its type is the longest declared one.
pub fn suffix_is_longest()
    ensures { SuffixIsLongest }
{}

/// There is at most one longest suffix.
pub fn one_is_longest()
    ensures { OneIsLongest }
{}

/// A chosen path exists exactly where a path exists.
pub fn path_is_chosen()
    ensures { PathIsChosen }
{}

/// There is at most one chosen path.
pub fn one_is_chosen()
    ensures { OneIsChosen }
{}
