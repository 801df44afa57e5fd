// The outcome of a call.
ghost use Rattle.std.specs.Prelude.{◌≡◌, map, IfOk};
ghost use Rattle.meaning_calls.specs.Outcomes as meaning;

use crate::endings::{signal_text, status_text};
use crate::file_names::WARNINGS;
use crate::left::Left;
use crate::outputs::{outputs_of, put_faults};
use crate::warnings::own_lines;
use object_values::{Bytes, Call, End, Memory, Outcome, OwnLine, Raw, Seq, Status, Text};
use std::alloc::Global;

// The messages of the tool, at this level.
fn lines_of(alloc: Global, level: Status, left: &Left) -> Result<Seq<OwnLine>, Memory>
    ensures { let warnings = meaning.warnings_of left.now.raw.now in
        IfOk result (λ lines. lines ≡
        map (meaning.at_level level) (meaning.message_lines warnings)) }
{
    match left.body(WARNINGS) {
        Some(warnings) => own_lines(alloc, level, warnings.as_slice()),
        None => Ok(Seq::new(alloc)),
    }
}

// The outcome of a tool that may have made its outputs.
fn ended_well(
    alloc: Global,
    call: &Call,
    left: &Left,
    status: Status,
    mut lines: Seq<OwnLine>,
) -> Result<Outcome, Memory>
    ensures { let faults = meaning.output_faults left.now.raw.now call.now.outs in
        IfOk result (λ outcome. outcome ≡
        meaning.ended_well call.now left.now.raw.now status lines faults) }
{
    let names = call.outs.as_slice();
    let messages = lines.len();
    put_faults(alloc, left, names, &mut lines)?;
    if lines.len() > messages {
        return Ok(Outcome {
            status: Status::Abort,
            lines,
            outputs: Seq::new(alloc),
        });
    }
    Ok(Outcome {
        status,
        lines,
        outputs: outputs_of(alloc, left, names)?,
    })
}

// The outcome of a tool that failed, with a message on how it ended.
fn ended_badly(alloc: Global, left: &Left, how: Bytes) -> Result<Outcome, Memory>
    ensures { let warnings = meaning.warnings_of left.now.raw.now in
        IfOk result (λ outcome. outcome ≡
        meaning.ended_badly (meaning.message_lines warnings) how) }
{
    let mut lines = lines_of(alloc, Status::Abort, left)?;
    lines.push(OwnLine {
        level: Status::Abort,
        text: Text::of(how)?,
    })?;
    Ok(Outcome {
        status: Status::Abort,
        lines,
        outputs: Seq::new(alloc),
    })
}

fn exit_outcome(alloc: Global, call: &Call, left: &Left, status: u8) -> Result<Outcome, Memory>
    ensures { let lines = meaning.message_lines (meaning.warnings_of left.now.raw.now) in
        IfOk result (λ outcome. outcome ≡
        meaning.exit_outcome call.now left.now.raw.now lines status) }
{
    match status {
        0 => {
            let lines = lines_of(alloc, Status::Warning, left)?;
            let status = if lines.is_empty() {
                Status::Ok
            } else {
                Status::Warning
            };
            ended_well(alloc, call, left, status, lines)
        }
        1 => {
            let lines = lines_of(alloc, Status::Error, left)?;
            ended_well(alloc, call, left, Status::Error, lines)
        }
        _ => ended_badly(alloc, left, status_text(alloc, call, status)?),
    }
}

/// The outcome of a call, whose job left this. Outputs share the bodies that it left.
pub fn outcome_of(alloc: Global, call: &Call, raw: &Raw) -> Result<Outcome, Memory>
    ensures is { IfOk result (λ outcome. outcome ≡ meaning.outcome_of call.now raw.now) }
    ensures fits { IfOk result (λ outcome. meaning.OutcomeFits call.now outcome) }
{
    let left = Left::new(alloc, raw)?;
    match raw.end {
        End::Exit(status) => exit_outcome(alloc, call, &left, status),
        End::Signal => ended_badly(alloc, &left, signal_text(alloc, call)?),
    }
}
