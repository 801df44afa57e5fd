//! Worked examples of records that fit a graph, and of such as don't. Each is the contract of a function with an empty body.
ghost use Rattle.validator.specs.FitExamples.{NodesThatDoNotFit, PartsThatDoNotFit, RecordsThatFit, ValuesThatDoNotFit};

/// Records with values of each kind.
pub fn records_that_fit()
    ensures { RecordsThatFit }
{}

/// Values of another kind than their node's, and lists with elements of another type.
pub fn values_that_do_not_fit()
    ensures { ValuesThatDoNotFit }
{}

/// Compounds whose parts aren't those that are declared.
pub fn parts_that_do_not_fit()
    ensures { PartsThatDoNotFit }
{}

/// Nodes that fit no graph.
pub fn nodes_that_do_not_fit()
    ensures { NodesThatDoNotFit }
{}
