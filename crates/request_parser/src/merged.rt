// The parameters of two lists, as an expression keeps them that is written with all of them.
ghost use Rattle.std.specs.Prelude.{◌≡◌, ◌++◌, IfOk, OnOk};
ghost use Rattle.meaning_texts.specs.Reading.{kept_params};
ghost use Rattle.request_parser.specs.Kept.{KeepsAll};

use crate::kept::keep;
use object_values::{Copied, Memory, ParamValue, Seq};
use std::alloc::Global;

/// The parameters of both lists, canonically. Of one name the values of the first come first.
pub fn merge_params(
    alloc: Global,
    first: &[ParamValue],
    second: &[ParamValue],
) -> Result<Seq<ParamValue>, Memory>
    ensures { IfOk result (λ params. params ≡ kept_params (first.now ++ second.now)) }
{
    let mut params = Vec::new(alloc);
    keep_all(alloc, first, &mut params)?;
    keep_all(alloc, second, &mut params)?;
    Ok(Seq::from_vec(params))
}

// Puts copies of parameters among those that are kept.
fn keep_all(alloc: Global, more: &[ParamValue], params: &mut Vec<ParamValue>) -> Result<(), Memory>
    ensures { OnOk result (KeepsAll more.now params.old.items params.new.items) }
{
    for param in more {
        let copy = param.copy(alloc)?;
        keep(params, copy)?;
    }
    Ok(())
}
