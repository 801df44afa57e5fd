//! What a tool that runs is called by.
ghost use Rattle.std.specs.Prelude.{◌≡◌, ◌++◌, ℕ, List, OnOk, IfOk, IfSome, IfNone};
ghost use Rattle.call_layout.specs.Told.{read_call};
ghost use Rattle.build_view.specs.Labels as meaning;

use call_layout::told::{CallTold, read_call};
use object_values::{Bytes, Job, Memory};
use odin_bytes::cut_at;
use std::alloc::Global;

/// The name of the tool, which the second line of the file `call` tells.
fn tool_of(call: &[u8]) -> Option<&[u8]>
    ensures some { IfSome result (λ name. meaning.IsToolOf call.now name.now) }
    ensures none { IfNone result ((name : List ℕ) → ¬ meaning.IsToolOf call.now name) }
{
    let line = call.strip_prefix(b"odin 1\ntool ")?;
    let (name, _) = cut_at(b' ', line)?;
    Some(name)
}

/// Adds the label of the first part after a space, where there is one.
fn write_first(told: &CallTold, out: &mut Bytes) -> Result<(), Memory>
    ensures { OnOk result (out.new ≡ out.old ++ meaning.first_words told.now.parts) }
{
    let Some(part) = told.parts.as_slice().first() else {
        return Ok(());
    };
    out.push(b' ')?;
    out.extend_from_slice(part.label.as_slice())
}

/// The label of a tool's run, by its file `call`: its name, and the label of the first part.
fn label_in(alloc: Global, call: &[u8]) -> Result<Bytes, Memory>
    ensures { IfOk result (meaning.IsLabelIn call.now) }
{
    let mut label = Bytes::new(alloc);
    if let Some(name) = tool_of(call) {
        label.extend_from_slice(name)?;
    }
    if let Some(told) = read_call(alloc, call)? {
        write_first(&told, &mut label)?;
    }
    Ok(label)
}

/// The label of a tool's run: its name, and the label of the first part of its call, which its first file tells.
pub fn label_of(alloc: Global, job: &Job) -> Result<Bytes, Memory>
    ensures { IfOk result (meaning.IsLabelOf job.now.files) }
{
    match job.files.as_slice().first() {
        Some(file) => label_in(alloc, file.body.as_slice()),
        None => Ok(Bytes::new(alloc)),
    }
}
