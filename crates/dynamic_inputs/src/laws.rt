//! Laws of closures. Each is the contract of a function with an empty body.
ghost use Rattle.dynamic_inputs.specs.Laws.{RootAgain, AllToldIsReached, EachIsToldInTurn};

/// The lines of a root that is reached again lead to no further name.
pub fn root_again()
    ensures { RootAgain }
{}

/// Once all is told, the names are those that are reached, whatever the order of the telling.
pub fn all_told_is_reached()
    ensures { AllToldIsReached }
{}

/// What is told by a function stays so while the wanted names are told.
pub fn each_is_told_in_turn()
    ensures { EachIsToldInTurn }
{}
