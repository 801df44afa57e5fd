//! Patterns of paths: `*` stands for any bytes of a name, and a step `**` for any folders.
ghost use Rattle.std.specs.Prelude.{◌≡◌, ◌==◌, IfOk, map, reverse, slice_get, unwrap_or, length, false, ◌-◌, [], bytes_eq, codes};
ghost use Rattle.project_file.specs.Patterns as meaning;
ghost use Rattle.project_file.specs.Rows.{moved_on};
ghost use Rattle.project_file.specs.RowsOf.{row_of};

use crate::rows::{any_so_far, first_row};
use object_values::Memory;
use std::alloc::Global;

/// The last of a row, which tells of the whole text.
fn last_of(row: &[bool]) -> bool
    ensures { result ≡ unwrap_or (slice_get row.now (length row.now - 1)) false }
{
    match row.last() {
        Some(passes) => *passes,
        None => false,
    }
}

/// The bytes of a name from its last one to its first.
fn backwards(alloc: Global, name: &[u8]) -> Result<Vec<u8>, Memory>
    ensures { IfOk result (λ bytes. bytes.items ≡ reverse name.now) }
{
    Ok(name.iter().rev().copied().collect(alloc)?)
}

/// The row after one byte of a step in front.
fn after_byte(alloc: Global, byte: u8, name: &[u8], row: &[bool]) -> Result<Vec<bool>, Memory>
    ensures { IfOk result (λ next. next.items ≡ moved_on (λ c. c == byte) name.now row.now) }
{
    let mut next = Vec::new(alloc);
    next.push(false)?;
    for (other, passes) in name.iter().zip(row) {
        next.push(*other == byte && *passes)?;
    }
    Ok(next)
}

/// Which rests of a name, that comes from its last byte to its first, a step fits.
fn step_row(alloc: Global, step: &[u8], name: &[u8]) -> Result<Vec<bool>, Memory>
    ensures { IfOk result (λ row. row.items ≡ row_of (meaning.step_fits step.now) [] name.now) }
{
    match step.split_first() {
        None => first_row(alloc, name.len()),
        Some((byte, rest)) => {
            let row = step_row(alloc, rest, name)?;
            if *byte == b'*' {
                any_so_far(alloc, row.as_slice())
            } else {
                after_byte(alloc, *byte, name, row.as_slice())
            }
        }
    }
}

/// Whether a step of a pattern fits a name.
fn step_fits(alloc: Global, step: &[u8], name: &[u8]) -> Result<bool, Memory>
    ensures { IfOk result (λ fits. fits ≡ meaning.step_fits step.now name.now) }
{
    let bytes = backwards(alloc, name)?;
    let row = step_row(alloc, step, bytes.as_slice())?;
    Ok(last_of(row.as_slice()))
}

/// The row after one step in front. Names are looked at only where what comes after them fits.
fn after_step(
    alloc: Global,
    step: &[u8],
    names: &[&[u8]],
    row: &[bool],
) -> Result<Vec<bool>, Memory>
    ensures { IfOk result (λ next. next.items ≡
        moved_on (meaning.step_fits step.now) (map (λ name. name.now) names.now) row.now) }
{
    let mut next = Vec::new(alloc);
    next.push(false)?;
    for (name, passes) in names.iter().zip(row) {
        let fits = if *passes {
            step_fits(alloc, step, name)?
        } else {
            false
        };
        next.push(fits)?;
    }
    Ok(next)
}

/// Whether a step stands for folders.
fn is_folders(step: &[u8]) -> bool
    ensures { result ≡ bytes_eq step.now (codes "**") }
{
    step == b"**".as_slice()
}

/// Which rests of a path, whose names come from the last to the first, the steps of a pattern fit.
fn steps_row(alloc: Global, steps: &[&[u8]], names: &[&[u8]]) -> Result<Vec<bool>, Memory>
    ensures { IfOk result (λ row. row.items ≡
        row_of (meaning.steps_fit (map (λ step. step.now) steps.now)) []
        (map (λ name. name.now) names.now)) }
{
    match steps.split_first() {
        None => first_row(alloc, names.len()),
        Some((step, rest)) => {
            let row = steps_row(alloc, rest, names)?;
            if is_folders(step) {
                any_so_far(alloc, row.as_slice())
            } else {
                after_step(alloc, step, names, row.as_slice())
            }
        }
    }
}

/// What stands between the slashes of a path.
fn steps_of(alloc: Global, path: &[u8]) -> Result<Vec<&[u8]>, Memory>
    ensures { IfOk result (λ steps.
        map (λ step. step.now) steps.items ≡ meaning.steps_of path.now) }
{
    Ok(path.split(|byte| *byte == b'/').collect(alloc)?)
}

/// Whether a pattern fits a path.
pub fn fits(alloc: Global, pattern: &[u8], path: &[u8]) -> Result<bool, Memory>
    ensures { IfOk result (λ fits. fits ≡ meaning.fits pattern.now path.now) }
{
    let steps = steps_of(alloc, pattern)?;
    let mut names = steps_of(alloc, path)?;
    names.reverse();
    let row = steps_row(alloc, steps.as_slice(), names.as_slice())?;
    Ok(last_of(row.as_slice()))
}
