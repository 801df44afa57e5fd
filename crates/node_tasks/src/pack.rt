// Values that are packed into a compound.
ghost use Rattle.std.specs.Prelude.{◌≡◌, ◌++◌, flat_map, map, option_map, option_to_list, IfOk, OnOk};
ghost use Rattle.meaning_tasks.specs.Tasks.{pack_part};
ghost use Rattle.meaning_tasks.specs.Needs.{values_of};
ghost use Rattle.meaning_tasks.specs.Calls.{text_in};
ghost use Rattle.meaning_tasks.specs.Settle.{named_body, packed_own};

use crate::base::base_of;
use crate::gathering::put_messages;
use crate::led::led_to;
use crate::own::Own;
use object_values::{Bytes, Copied, Memory, Node, Part, PartDecl, Seq, Value};
use path_planner::PlannedGraph;
use std::alloc::Global;
use task_needs::{Results, value_of};

/// The compound of the values of the parts.
pub(crate) fn packed_own<R: Results>(
    alloc: Global,
    planned: &PlannedGraph<'_>,
    node: &Node,
    parts: &[PartDecl],
    seen: &R,
) -> Result<Own, Memory>
    ensures { let packs = map (pack_part planned.now node.now) parts.now in
        IfOk result (λ own. own ≡ packed_own (values_of (R.results seen.now)) packs) }
{
    let base = base_of(alloc, node)?;
    let mut bodies = Seq::new(alloc);
    let mut missing = Seq::new(alloc);
    for part in parts {
        let led = led_to(alloc, planned, node, part.of.as_slice(), &base)?;
        put_messages(alloc, led.missing(), &mut missing)?;
        put_body(alloc, &part.name, led.node(), seen, &mut bodies)?;
    }
    Ok(Own::fine_unless(Value::Compound(bodies), missing))
}

// The text of the node under the name of its part, where it has one.
fn put_body<R: Results>(
    alloc: Global,
    name: &Bytes,
    node: Option<&Node>,
    seen: &R,
    out: &mut Seq<Part>,
) -> Result<(), Memory>
    ensures { let known = values_of (R.results seen.now) in
        let nodes = option_to_list (option_map (λ n. n.now) node.entry) in
        let bodies = flat_map (λ n. named_body name.now (text_in (known n))) nodes in
        OnOk result (out.new ≡ out.old ++ bodies) }
{
    let Some(node) = node else {
        return Ok(());
    };
    let Some(Value::Simple(text)) = value_of(seen, node) else {
        return Ok(());
    };
    out.push(Part {
        name: name.copy(alloc)?,
        body: text.copy(alloc)?,
    })
}
