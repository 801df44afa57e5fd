//! Laws of walks. Each is the contract of a function with an empty body.
ghost use Rattle.derive_walk.specs.Laws.{FoundStays, RightStays, FormedStays, FoundFits, WantedAreFormed, RightIsFormed, LooksAreOfNodes, AllIsLookedAt, ToldIsKnown};

/// What is found stays, and so does a walk that is right or formed, as more outcomes come.
pub fn more_keeps()
    ensures found { FoundStays }
    ensures right { RightStays }
    ensures formed { FormedStays }
{}

/// The nodes that are found fit the graph, and the calls that are wanted are well formed: all that
/// is right is formed.
pub fn all_is_formed()
    ensures nodes { FoundFits }
    ensures calls { WantedAreFormed }
    ensures walks { RightIsFormed }
{}

/// What `counted` counts are looks at different nodes that may be looked at, and at a view all of them;
/// and outcomes that no record could spare.
pub fn looks_are_of_nodes()
    ensures nodes { LooksAreOfNodes }
    ensures all { AllIsLookedAt }
{}

/// Once what a walk tells is kept, what is kept of nodes is true, and what was checked holds.
pub fn told_is_known()
    ensures { ToldIsKnown }
{}
