//! Laws of replies. Each is the contract of a function with an empty body.
ghost use Rattle.odin_answers.specs.Laws.{AnswersAreCounted, RefusalIsCounted, NoneIsTakenBack, CallsAreItsOwn, StartsAreItsOwn, AskedAgain, KeptStaysTrueByAsk, AnswersAreFresh, KeptAnswerIsUnique, OthersDontMatter};

/// An answer leaves the count of the tools' faults as it was where the node has a result, and never lets it fall; a refused start raised it.
pub fn replies_are_counted()
    ensures answers { AnswersAreCounted }
    ensures refusals { RefusalIsCounted }
    ensures none { NoneIsTakenBack }
{}

/// What came of tools for a text are calls of its node that weren't kept, each once, and all of these where it has a result; and each tool
/// that was started, in an ask with an answer, with a refused start or without a reply, was started for such a call.
pub fn calls_are_its_own()
    ensures came { CallsAreItsOwn }
    ensures started { StartsAreItsOwn }
{}

/// Nothing is run for a text that was answered, from the same sources and over all that was kept and given then.
pub fn asked_again()
    ensures { AskedAgain }
{}

/// Where the tools answer by a table, and what is kept is what it gives, that stays so; and an answer is what is derived with nothing kept.
pub fn kept_stays_true()
    ensures kept { KeptStaysTrueByAsk }
    ensures fresh { AnswersAreFresh }
{}

/// There a text has one answer from the same sources, whatever is kept, and the same calls are run for it where the same are kept; or two
/// answers show chains, of which there may be more than one.
pub fn answer_is_one()
    ensures { KeptAnswerIsUnique }
{}

/// Editing sources that an object doesn't need runs nothing for it, and changes no byte of its reply.
pub fn others_dont_matter()
    ensures { OthersDontMatter }
{}
