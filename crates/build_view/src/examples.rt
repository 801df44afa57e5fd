//! Worked examples of what a page has, and of which parts differ. Each is the contract of a function with an empty body.
ghost use Rattle.build_view.specs.PageExamples.{Bars, Boxes, Rows, Texts};
ghost use Rattle.build_view.specs.ReasonExamples.{Reasons};

/// Texts in their places.
pub fn texts()
    ensures { Texts }
{}

/// Parts of the timeline.
pub fn bars()
    ensures { Bars }
{}

/// Rows of the tables.
pub fn rows()
    ensures { Rows }
{}

/// Objects.
pub fn boxes()
    ensures { Boxes }
{}

/// Parts that differ.
pub fn reasons()
    ensures { Reasons }
{}
