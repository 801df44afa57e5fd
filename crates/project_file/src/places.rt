// Paths that a project's file may name.
ghost use Rattle.std.specs.Prelude.{◌≡◌};
ghost use Rattle.std.specs.List.{list_any};
ghost use Rattle.project_file.specs.Patterns.{steps_of};
ghost use Rattle.project_file.specs.Places as meaning;

use odin_bytes::cut_at;

fn climbs(step: &[u8]) -> bool
    ensures { result ≡ meaning.climbs step.now }
{
    step == b"..".as_slice()
}

fn leads_on(step: &[u8]) -> bool
    ensures { result ≡ meaning.leads_on step.now }
{
    !step.is_empty() && step != b".".as_slice()
}

/// Whether a step of a path leads up.
fn some_step_climbs(path: &[u8]) -> bool
    ensures { result ≡ list_any meaning.climbs (steps_of path.now) }
{
    let mut rest = path;
    'steps: while let Some((step, behind)) = cut_at(b'/', rest) {
        if climbs(step) {
            return true;
        }
        rest = behind;
    }
    climbs(rest)
}

/// Whether a step of a path leads to something in the folder.
fn some_step_leads_on(path: &[u8]) -> bool
    ensures { result ≡ list_any meaning.leads_on (steps_of path.now) }
{
    let mut rest = path;
    'steps: while let Some((step, behind)) = cut_at(b'/', rest) {
        if leads_on(step) {
            return true;
        }
        rest = behind;
    }
    leads_on(rest)
}

/// Whether a path stays below the project's folder, or is the folder.
pub(crate) fn is_below(path: &[u8]) -> bool
    ensures { result ≡ meaning.is_below path.now }
{
    match path.first() {
        None | Some(b'/') => false,
        Some(_) => !some_step_climbs(path),
    }
}

/// Whether a path may be that of a file below the project's folder.
pub(crate) fn is_file_below(path: &[u8]) -> bool
    ensures { result ≡ meaning.is_file_below path.now }
{
    is_below(path) && some_step_leads_on(path)
}
