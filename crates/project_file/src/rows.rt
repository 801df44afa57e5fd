// Whether each rest of a text passes a test: a row, from the empty rest to the whole text.
ghost use Rattle.std.specs.Prelude.{◌≡◌, ◌&&◌, false, true, ◌∷◌, length, zip, map, IfOk};
ghost use Rattle.project_file.specs.Rows.{first_row, any_so_far, moved_on};

use object_values::Memory;
use std::alloc::Global;

/// The row of the test that passes the empty rest alone.
pub(crate) fn first_row(alloc: Global, len: usize) -> Result<Vec<bool>, Memory>
    ensures { IfOk result (λ row. row.items ≡ first_row len) }
{
    let mut row = Vec::new(alloc);
    row.push(true)?;
    for _ in 0..len {
        row.push(false)?;
    }
    Ok(row)
}

/// The row of a test that some shorter rest passes, or the rest itself.
pub(crate) fn any_so_far(alloc: Global, row: &[bool]) -> Result<Vec<bool>, Memory>
    ensures { IfOk result (λ next. next.items ≡ any_so_far false row.now) }
{
    let mut next = Vec::new(alloc);
    let mut any = false;
    for passes in row {
        any = *passes || any;
        next.push(any)?;
    }
    Ok(next)
}
