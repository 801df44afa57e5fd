// Contents that come into another table: the texts are held there under their own numbers in memory.
ghost use Rattle.std.specs.Prelude.{◌≡◌, IfOk, reverse};
ghost use Rattle.kept_contents.specs.Stocks.{IsGrownFrom, IsHeldIn, value_of, values_of_contents};
ghost use Rattle.kept_contents.specs.Added.{AreHeld};

use crate::shared::Content;
use crate::table::ContentTable;
use object_values::{Memory, Value};
use std::alloc::Global;

/// The same contents, whose texts this table holds from now on, the last one first.
pub fn share_contents(
    alloc: Global,
    table: &mut ContentTable,
    contents: &[Content],
) -> Result<Vec<Content>, Memory>
    ensures same { IfOk result (λ shared.
        values_of_contents (reverse shared.items) ≡ values_of_contents contents.now) }
    ensures held { IfOk result (λ shared. AreHeld table.new.texts shared.items) }
    ensures contents { table.new.contents ≡ table.old.contents }
    ensures grown { IsGrownFrom table.old.texts table.new.texts }
{
    let mut shared = hold_contents(alloc, table, contents)?;
    shared.reverse();
    Ok(shared)
}

// The same in their order.
fn hold_contents(
    alloc: Global,
    table: &mut ContentTable,
    contents: &[Content],
) -> Result<Vec<Content>, Memory>
    ensures same { IfOk result (λ shared.
        values_of_contents shared.items ≡ values_of_contents contents.now) }
    ensures held { IfOk result (λ shared. AreHeld table.new.texts shared.items) }
    ensures contents { table.new.contents ≡ table.old.contents }
    ensures grown { IsGrownFrom table.old.texts table.new.texts }
{
    let mut shared = Vec::new(alloc);
    for content in contents {
        let value = content.value(alloc)?;
        shared.push(hold_value(alloc, table, value)?)?;
    }
    Ok(shared)
}

// A value as a content, whose text the table holds where it is one.
fn hold_value(alloc: Global, table: &mut ContentTable, value: Value) -> Result<Content, Memory>
    ensures same { IfOk result (λ content. value_of content ≡ value) }
    ensures held { IfOk result (λ content. IsHeldIn table.new.texts content) }
    ensures contents { table.new.contents ≡ table.old.contents }
    ensures grown { IsGrownFrom table.old.texts table.new.texts }
{
    match value {
        Value::Simple(text) => Ok(Content::Text(table.share(alloc, &text)?)),
        other => Ok(Content::Other(other)),
    }
}
