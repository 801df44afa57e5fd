// Nodes that are led on, gathered: the nodes that are there, and the messages where none is.
ghost use Rattle.std.specs.Prelude.{◌≡◌, ◌++◌, IfOk, OnOk, option_to_list};
ghost use Rattle.meaning_tasks.specs.Tasks.{led_missing};

use object_values::{Copied, Memory, Message, Node, Seq};
use std::alloc::Global;
use task_needs::Led;

/// Puts the node after the nodes, or the message after the messages.
pub(crate) fn put_led(
    alloc: Global,
    led: Led,
    nodes: &mut Seq<Node>,
    missing: &mut Seq<Message>,
) -> Result<(), Memory>
    ensures nodes { OnOk result (nodes.new ≡ nodes.old ++ option_to_list led.node) }
    ensures missing { OnOk result (missing.new ≡ missing.old ++ led.missing) }
{
    let (node, messages) = led.into_parts();
    put_messages(alloc, messages.as_slice(), missing)?;
    match node {
        Some(node) => nodes.push(node),
        None => Ok(()),
    }
}

/// Puts messages after those that are there.
pub(crate) fn put_messages(
    alloc: Global,
    messages: &[Message],
    out: &mut Seq<Message>,
) -> Result<(), Memory>
    ensures { OnOk result (out.new ≡ out.old ++ messages.now) }
{
    for message in messages {
        out.push(message.copy(alloc)?)?;
    }
    Ok(())
}

/// The messages of those that are missing.
pub(crate) fn missing_of(alloc: Global, led: &[Led]) -> Result<Seq<Message>, Memory>
    ensures { IfOk result (λ missing. missing ≡ led_missing led.now) }
{
    let mut missing = Seq::new(alloc);
    for one in led {
        put_messages(alloc, one.missing(), &mut missing)?;
    }
    Ok(missing)
}
