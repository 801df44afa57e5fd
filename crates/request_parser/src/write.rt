// The canonical spelling of an expression.
ghost use Rattle.std.specs.Prelude.{◌≡◌, ◌++◌, IfOk, OnOk};
ghost use Rattle.std.specs.List.{flat_map};
ghost use Rattle.meaning_texts.specs.Expressions.{value_spelling, param_spelling, step_spelling, spelling};
ghost use Rattle.request_parser.specs.Written.{ReadsBackAlone};

use object_values::{Bytes, ExprStep, Expression, Memory, ParamValue};
use std::alloc::Global;

/// The canonical spelling of an expression.
pub fn write_expression(alloc: Global, expression: &Expression) -> Result<Bytes, Memory>
    ensures spelling { IfOk result (λ text. text ≡ spelling expression.now) }
    ensures reads_back { IfOk result (ReadsBackAlone expression.now) }
{
    let mut text = Bytes::new(alloc);
    put_expression(expression, &mut text)?;
    Ok(text)
}

fn put_expression(expression: &Expression, out: &mut Bytes) -> Result<(), Memory>
    ensures { OnOk result (out.new ≡ out.old ++ spelling expression.now) }
{
    out.extend_from_slice(expression.source.as_slice())?;
    put_params(expression.params.as_slice(), out)?;
    put_steps(expression.steps.as_slice(), out)
}

fn put_params(params: &[ParamValue], out: &mut Bytes) -> Result<(), Memory>
    ensures { OnOk result (out.new ≡ out.old ++ flat_map param_spelling params.now) }
{
    'params: for param in params {
        put_param(param, out)?;
    }
    Ok(())
}

fn put_param(param: &ParamValue, out: &mut Bytes) -> Result<(), Memory>
    ensures { OnOk result (out.new ≡ out.old ++ param_spelling param.now) }
{
    out.push(b'+')?;
    out.extend_from_slice(param.param.as_slice())?;
    put_value(param.value.as_slice(), out)
}

// Nothing for the empty value.
fn put_value(value: &[u8], out: &mut Bytes) -> Result<(), Memory>
    ensures { OnOk result (out.new ≡ out.old ++ value_spelling value.now) }
{
    if value.is_empty() {
        return Ok(());
    }
    out.push(b'=')?;
    out.extend_from_slice(value)
}

fn put_steps(steps: &[ExprStep], out: &mut Bytes) -> Result<(), Memory>
    ensures { OnOk result (out.new ≡ out.old ++ flat_map step_spelling steps.now) }
{
    'steps: for step in steps {
        put_step(step, out)?;
    }
    Ok(())
}

fn put_step(step: &ExprStep, out: &mut Bytes) -> Result<(), Memory>
    ensures { OnOk result (out.new ≡ out.old ++ step_spelling step.now) }
{
    match step {
        ExprStep::To(id) => {
            out.push(b':')?;
            out.extend_from_slice(id.as_slice())
        }
        ExprStep::Pick(key) => {
            out.push(b'%')?;
            out.extend_from_slice(key.as_slice())
        }
    }
}
