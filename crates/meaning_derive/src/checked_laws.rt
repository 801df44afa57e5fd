//! Laws over checked graphs. Each is the contract of a function with an empty body.
ghost use Rattle.meaning_derive.specs.CheckedLaws.{NeedsFit, DeriveIsMap, DeriveIsMapOverFitting, CallsWellFormed, FrontierWellFormed, MetFit, DerivedIsShort, DerivedElementsFit, CallsFormedOver, SettlesWell};

/// The needs of a node that fits do so too.
pub fn needs_fit()
    ensures { NeedsFit }
{}

/// What is derived at a height is a map of results.
pub fn derive_is_map()
    ensures map { DeriveIsMap }
    ensures each { DeriveIsMapOverFitting }
{}

/// The calls of a derivation are well formed.
pub fn calls_well_formed()
    ensures met { CallsWellFormed }
    ensures frontier { FrontierWellFormed }
{}

/// The nodes that are met from a node that fits do so too.
pub fn met_fit()
    ensures { MetFit }
{}

/// Bodies that are derived are short, and lists that are derived hold only what fits.
pub fn derived_is_short()
    ensures bodies { DerivedIsShort }
    ensures elements { DerivedElementsFit }
{}

/// Calls are well formed over any map of results.
pub fn calls_formed_over()
    ensures { CallsFormedOver }
{}

/// What a node settles to over any map of results is a result of it, and short.
pub fn settles_well()
    ensures { SettlesWell }
{}
