//! Worked examples of the definitions. Each is the contract of a function with an empty body.
ghost use Rattle.meaning_graph.specs.TextExamples.{CanonicalGraphs, OtherSpellings, SyntaxFaults, CheckedGraphs, FaultsOfGraphs, UnknownTypes, DoubleNames, WrongKinds, OrderOfFaults};

/// Graphs and their canonical spellings.
pub fn canonical_graphs()
    ensures { CanonicalGraphs }
{}

/// Spellings with blanks and comments, and the empty one.
pub fn other_spellings()
    ensures { OtherSpellings }
{}

/// Where texts stop being graphs.
pub fn syntax_faults()
    ensures { SyntaxFaults }
{}

/// Graphs without a fault.
pub fn checked_graphs()
    ensures { CheckedGraphs }
{}

/// The faults of declarations.
pub fn faults_of_graphs()
    ensures { FaultsOfGraphs }
{}

/// Types that are nowhere declared, at each place that names a type.
pub fn unknown_types()
    ensures { UnknownTypes }
{}

/// Names that stand twice.
pub fn double_names()
    ensures { DoubleNames }
{}

/// Kinds that don't fit.
pub fn wrong_kinds()
    ensures { WrongKinds }
{}

/// Which of several faults is the first.
pub fn order_of_faults()
    ensures { OrderOfFaults }
{}
