//! Laws of calls. Each is the contract of a function with an empty body.
ghost use Rattle.meaning_calls.specs.Laws.{OneJobOneCall, EachOutcomeFits, WellFormedIsTested, OutcomeFitsIsTested};

/// Two well formed calls with one job are one call.
pub fn one_job_one_call()
    ensures { OneJobOneCall }
{}

/// The outcome of a call fits it, whatever its job left.
pub fn outcomes_fit()
    ensures { EachOutcomeFits }
{}

/// The computed test holds of the well formed calls alone.
pub fn well_formed_is_tested()
    ensures { WellFormedIsTested }
{}

/// The computed test holds of the outcomes that fit alone.
pub fn fits_is_tested()
    ensures { OutcomeFitsIsTested }
{}
