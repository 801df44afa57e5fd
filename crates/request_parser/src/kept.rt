// The parameters of an expression as it keeps them: sorted by name, and none twice.
ghost use Rattle.std.specs.Prelude.{◌≡◌, position, OnOk};
ghost use Rattle.std.specs.List.{list_any};
ghost use Rattle.meaning_texts.specs.Reading.{same_param};
ghost use Rattle.request_parser.specs.Kept.{KeepsOne, IsPlaceOf, is_below};

use object_values::{Memory, ParamValue, same};

/// Puts the parameter after those of its name and of lesser ones, unless it is there with its value.
pub(crate) fn keep(params: &mut Vec<ParamValue>, param: ParamValue) -> Result<(), Memory>
    ensures { OnOk result (KeepsOne param params.old.items params.new.items) }
{
    if has(params, &param) {
        return Ok(());
    }
    let place = place_of(params, &param);
    params.insert(place, param)?;
    Ok(())
}

// Whether the parameter is there with its value.
fn has(params: &[ParamValue], param: &ParamValue) -> bool
    ensures { result ≡ list_any (λ other. same_param other param.now) params.now }
{
    params.iter().any(|other| is_same(other, param))
}

fn is_same(a: &ParamValue, b: &ParamValue) -> bool
    ensures { result ≡ same_param a.now b.now }
{
    same(&a.param, &b.param) && same(&a.value, &b.value)
}

// Where the first parameter of a greater name stands.
fn place_of(params: &[ParamValue], param: &ParamValue) -> usize
    ensures { IsPlaceOf param.now params.now result }
{
    match first_greater(params, param) {
        Some(place) => place,
        None => params.len(),
    }
}

fn first_greater(params: &[ParamValue], param: &ParamValue) -> Option<usize>
    ensures { result ≡ position (is_below param.now) params.now }
{
    params.iter().position(|other| is_below(param, other))
}

fn is_below(a: &ParamValue, b: &ParamValue) -> bool
    ensures { result ≡ is_below a.now b.now }
{
    a.param.cmp(&b.param).is_lt()
}
