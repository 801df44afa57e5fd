// References that are led on.
ghost use Rattle.std.specs.Prelude.{◌≡◌, IfOk, map};
ghost use Rattle.meaning_tasks.specs.Tasks.{each_own, led_to as led_by, listed_own};

use crate::gathering::put_led;
use crate::led::led_to;
use crate::own::Own;
use object_values::{Memory, Node, Seq, Value};
use path_planner::PlannedGraph;
use std::alloc::Global;

/// Each reference of a list, further from its own type to the element type.
pub(crate) fn each_own(
    alloc: Global,
    planned: &PlannedGraph<'_>,
    node: &Node,
    of: &[u8],
    value: &Value,
) -> Result<Own, Memory>
    ensures { IfOk result (λ own. own ≡ each_own planned.now node.now of.now value.now) }
{
    match value {
        Value::List(elements) => { elements_own(alloc, planned, node, of, elements.as_slice()) }
        Value::Simple(_) | Value::Compound(_) => Ok(Own::aborted(Seq::new(alloc))),
    }
}

fn elements_own(
    alloc: Global,
    planned: &PlannedGraph<'_>,
    node: &Node,
    of: &[u8],
    elements: &[Node],
) -> Result<Own, Memory>
    ensures { let led = map (led_by planned.now node.now of.now) elements.now in
        IfOk result (λ own. own ≡ listed_own led) }
{
    let mut nodes = Seq::from_vec(Vec::with_capacity(alloc, elements.len())?);
    let mut missing = Seq::new(alloc);
    for element in elements {
        let led = led_to(alloc, planned, node, of, element)?;
        put_led(alloc, led, &mut nodes, &mut missing)?;
    }
    Ok(Own::fine_unless(Value::List(nodes), missing))
}
