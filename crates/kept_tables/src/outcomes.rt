// Whether an outcome fits a call.
ghost use Rattle.std.specs.Prelude.{◌≡◌, ◌↔◌, IsTrue};
ghost use Rattle.std.specs.List.{list_all};
ghost use Rattle.meaning_calls.specs.Outcomes.{OutcomeFits};
ghost use Rattle.kept_tables.specs.Tests.{are_named, is_short_output, outcome_fits};

use object_values::{BODY_LIMIT, Bytes, Call, Outcome, Part, Status};

/// Whether the outputs are those of the call in order, or none at `Abort`, and none is too long.
#[tactic(auto, using(crate::proofs::OutcomeLemmas::fits_decides))]
pub fn fits(call: &Call, outcome: &Outcome) -> bool
    ensures { IsTrue result ↔ OutcomeFits call.now outcome.now }
{
    test_outcome(call, outcome)
}

fn test_outcome(call: &Call, outcome: &Outcome) -> bool
    ensures { result ≡ outcome_fits call.now outcome.now }
{
    if outcome.status == Status::Abort {
        return outcome.outputs.is_empty();
    }
    are_named(outcome.outputs.as_slice(), call.outs.as_slice())
        && are_short(outcome.outputs.as_slice())
}

// Whether the outputs have these names in order.
#[tactic(auto, using(crate::proofs::OutcomeLemmas::apart_unnamed))]
fn are_named(outputs: &[Part], names: &[Bytes]) -> bool
    ensures { result ≡ are_named outputs.now names.now }
{
    if outputs.len() != names.len() {
        return false;
    }
    for (place, output) in outputs.iter().enumerate() {
        if output.name != names[place] {
            return false;
        }
    }
    true
}

fn are_short(outputs: &[Part]) -> bool
    ensures { result ≡ list_all is_short_output outputs.now }
{
    outputs.iter().all(|output| output.body.len() <= BODY_LIMIT)
}
