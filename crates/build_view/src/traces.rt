//! The runs of the tools of a build, as Chrome's page of traces reads them.
ghost use Rattle.std.specs.Prelude.{◌≡◌, ◌≤◌, Some, map, IfOk, string_bytes};
ghost use Rattle.std.specs.Str.Lossy.{utf8_lossy};
ghost use Rattle.serde_json.specs.Data.{depth};
ghost use Rattle.serde_json.specs.Read.{max_depth, read};
ghost use Rattle.serde_json.specs.View.{view};
ghost use Rattle.shown_texts.specs.Shown.{shown};
ghost use Rattle.build_view.specs.Traces as meaning;

use crate::runs::Run;
use object_values::{Bytes, Memory};
use serde_json::{Value, json};
use shown_texts::shown::write_shown;
use std::alloc::{AllocError, Global};

/// A text as a person is shown it, which is one of UTF-8.
fn shown_text(alloc: Global, text: &[u8]) -> Result<String, Memory>
    ensures { IfOk result (λ label. string_bytes label ≡ utf8_lossy (shown text.now)) }
{
    let mut bytes = Bytes::new(alloc);
    write_shown(text, &mut bytes)?;
    Ok(String::from_utf8_lossy(alloc, bytes.as_slice())?)
}

/// An event of the trace.
fn event_at(alloc: Global, slot: u32, label: &str, from: u64, to: u64) -> Result<Value, AllocError>
    ensures { IfOk result (λ value. view value ≡ meaning.event_at slot label.now from to) }
{
    let length = to.saturating_sub(from);
    json!(in alloc; {"dur": length, "name": label, "ph": "X", "pid": 1, "tid": slot, "ts": from})
}

/// A run as an event of the trace.
fn event_of(alloc: Global, run: &Run) -> Result<Value, Memory>
    ensures { IfOk result (λ value. view value ≡ meaning.event_of run.now) }
{
    let label = shown_text(alloc, run.label.as_slice())?;
    Ok(event_at(alloc, run.slot, label.as_str(), run.from, run.to)?)
}

/// The events of runs.
fn events_of(alloc: Global, runs: &[Run]) -> Result<Vec<Value>, Memory>
    ensures { IfOk result (λ events. map view events.items ≡ map meaning.event_of runs.now) }
{
    let mut events = Vec::new(alloc);
    for run in runs {
        events.push(event_of(alloc, run)?).map_err(|_| Memory)?;
    }
    Ok(events)
}

/// The trace, a list of events.
pub fn trace_text(alloc: Global, runs: &[Run]) -> Result<String, Memory>
    ensures { IfOk result (λ text. depth (meaning.trace_of runs.now) ≤ max_depth →
        read (string_bytes text) ≡ Some (meaning.trace_of runs.now)) }
{
    let events = events_of(alloc, runs)?;
    Ok(Value::Array(events).to_string(alloc)?)
}
