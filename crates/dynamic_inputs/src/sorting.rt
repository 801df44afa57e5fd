// Names by their bytes.
ghost use Rattle.std.specs.Prelude.{IfOk};
ghost use Rattle.std.specs.List.Sorted.{IsSorted, IsPermutation};
ghost use Rattle.meaning_texts.specs.Expressions.{name_cmp};

use object_values::{Copied, Memory, Seq};
use odin_bytes::Name;
use std::alloc::Global;

/// The same names in the order of their bytes.
pub(crate) fn sorted(alloc: Global, names: &[Name]) -> Result<Seq<Name>, Memory>
    ensures same { IfOk result (IsPermutation names.now) }
    ensures sorted { IfOk result (IsSorted name_cmp) }
{
    let mut names = Name::copy_all(alloc, names)?;
    names.sort_unstable();
    Ok(Seq::from_vec(names))
}
