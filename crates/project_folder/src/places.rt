// Paths that are never sources.
ghost use Rattle.std.specs.Prelude.{◌≡◌};
ghost use Rattle.std.specs.List.{list_any};
ghost use Rattle.project_file.specs.Patterns.{steps_of};
ghost use Rattle.project_folder.specs.Places as meaning;

use object_values::Bytes;

fn is_apart(step: &[u8]) -> bool
    ensures { result ≡ meaning.is_apart step.now }
{
    step == b".git".as_slice() || step == b".odin".as_slice()
}

fn leads_apart(path: &[u8]) -> bool
    ensures { result ≡ list_any meaning.is_apart (steps_of path.now) }
{
    path.split(|byte| *byte == b'/').any(|step| is_apart(step))
}

/// Whether a path is one that a project has for the build itself, or for its history.
pub fn is_reserved(path: &[u8]) -> bool
    ensures { result ≡ meaning.is_reserved path.now }
{
    path.starts_with(b"odin.") || leads_apart(path)
}

fn leads_off(step: &[u8]) -> bool
    ensures { result ≡ meaning.leads_off step.now }
{
    step.is_empty() || step == b"..".as_slice()
}

fn some_step_off(path: &[u8]) -> bool
    ensures { result ≡ list_any meaning.leads_off (steps_of path.now) }
{
    path.split(|byte| *byte == b'/').any(|step| leads_off(step))
}

/// Whether a path leads to a file below the folder where it begins, by its steps alone.
pub fn leads_below(path: &[u8]) -> bool
    ensures { result ≡ meaning.leads_below path.now }
{
    !some_step_off(path)
}

/// Whether nothing follows, or what lies in a folder.
fn leads_in(rest: &[u8]) -> bool
    ensures { result ≡ meaning.leads_in rest.now }
{
    match rest.first() {
        None => true,
        Some(byte) => *byte == b'/',
    }
}

/// Whether a path is this one, or lies in the folder there.
pub(crate) fn is_within(output: &[u8], path: &[u8]) -> bool
    ensures { result ≡ meaning.is_within output.now path.now }
{
    path.starts_with(output) && leads_in(&path[output.len()..])
}

fn is_output(outputs: &[Bytes], path: &[u8]) -> bool
    ensures { result ≡ meaning.is_output outputs.now path.now }
{
    outputs
        .iter()
        .any(|output| is_within(output.as_slice(), path))
}

/// Whether a file may be a source: it is none of the build's own, and none that a target writes.
pub(crate) fn may_be_source(outputs: &[Bytes], path: &[u8]) -> bool
    ensures { result ≡ meaning.may_be_source outputs.now path.now }
{
    !is_reserved(path) && !is_output(outputs, path)
}
