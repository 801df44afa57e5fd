//! Laws of answers. Each is the contract of a function with an empty body.
ghost use Rattle.meaning_derive.specs.AnswerLaws.{EachIsAnswered, EachHasPlan, FoundedIsShown, OthersAreChained, RefusalIsOne, PlanIsOne, AnswerIsUnique};

/// Every text has an answer and a plan.
pub fn each_is_answered()
    ensures answer { EachIsAnswered }
    ensures plan { EachHasPlan }
{}

/// A result is printed and nothing else, and where there is none a chain is shown.
pub fn answers_are_exact()
    ensures founded { FoundedIsShown }
    ensures others { OthersAreChained }
{}

/// A text has one refusal, one plan and one answer at most, but for the choice of the chain.
pub fn answer_is_one()
    ensures refusal { RefusalIsOne }
    ensures plan { PlanIsOne }
    ensures answer { AnswerIsUnique }
{}
