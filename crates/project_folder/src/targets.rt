// The targets that are asked for.
ghost use Rattle.std.specs.Prelude.{◌≡◌, map, IfOk, IfErr};
ghost use Rattle.std.specs.Option.{option_copied};
ghost use Rattle.project_folder.specs.Targets as meaning;

use object_values::{Bytes, Memory};
use project_file::project::{Project, Target};
use std::alloc::Global;

/// Why there are no targets that are asked for.
#[derive(Drop)]
pub enum NoTarget {
    /// The project has no target of this name.
    Unknown(Bytes),
    Memory,
}

impl From<Memory> for NoTarget {
    ghost use Rattle.std.specs.Prelude.{◌≡◌};
    ghost use Rattle.project_folder.specs.declared.targets.NoTarget.TheVariants as fault;

    ghost from_gives = { λ _ given. given ≡ fault.Memory };

    fn from(_: Memory) -> Self {
        NoTarget::Memory
    }
}

/// The target of a name.
fn target_named<'a>(targets: &'a [Target], name: &[u8]) -> Option<&'a Target>
    ensures { option_copied result ≡ meaning.target_named targets.now name.now }
{
    targets.iter().find(|target| target.name.as_slice() == name)
}

/// Each target, in the order of their names.
fn all_of(alloc: Global, targets: &[Target]) -> Result<Vec<&Target>, Memory>
    ensures { IfOk result (λ all. map (λ target. target.now) all.items ≡ targets.now) }
{
    let mut all = Vec::new(alloc);
    for target in targets {
        all.push(target)?;
    }
    Ok(all)
}

/// The targets of these names.
fn those_named<'a>(
    alloc: Global,
    targets: &'a [Target],
    names: &[&str],
) -> Result<Vec<&'a Target>, NoTarget>
    ensures ok { IfOk result (λ found. meaning.AreNamed targets.now
        (map (λ name. name.now) names.now) (map (λ target. target.now) found.items)) }
    ensures err { IfErr result (meaning.IsUnknownIn targets.now
        (map (λ name. name.now) names.now)) }
{
    let mut found = Vec::new(alloc);
    for name in names {
        match target_named(targets, name.as_bytes()) {
            Some(target) => found.push(target).map_err(|_| NoTarget::Memory)?,
            None => return Err(NoTarget::Unknown(Bytes::from_slice(alloc, name.as_bytes())?)),
        }
    }
    Ok(found)
}

/// The targets of a project that words ask for: those that they name, and where they name none all.
pub fn targets_among<'a>(
    alloc: Global,
    project: &'a Project,
    names: &[&str],
) -> Result<Vec<&'a Target>, NoTarget>
    ensures ok { IfOk result (λ found. meaning.AreAsked project.now.targets
        (map (λ name. name.now) names.now) (map (λ target. target.now) found.items)) }
    ensures err { IfErr result (meaning.IsUnknownIn project.now.targets
        (map (λ name. name.now) names.now)) }
{
    if names.is_empty() {
        return Ok(all_of(alloc, project.targets.as_slice())?);
    }
    those_named(alloc, project.targets.as_slice(), names)
}
