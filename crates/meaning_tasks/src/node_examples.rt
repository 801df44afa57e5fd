//! Worked examples of nodes and their texts. Each is the contract of a function with an empty body.
ghost use Rattle.meaning_tasks.specs.NodeExamples.{NodesOfTexts, RefusedNodes, LabelsAndTexts, Picks, WorstStatuses, InheritedMessages};

/// Nodes of texts.
pub fn nodes()
    ensures { NodesOfTexts }
{}

/// Refusals, with the number of the step.
pub fn refusals()
    ensures { RefusedNodes }
{}

/// The label and the text of a node.
pub fn labels()
    ensures { LabelsAndTexts }
{}

/// What keys pick from values.
pub fn picks()
    ensures { Picks }
{}

/// The worst of two statuses.
pub fn worst_statuses()
    ensures { WorstStatuses }
{}

/// Inherited messages.
pub fn inherited_messages()
    ensures { InheritedMessages }
{}
