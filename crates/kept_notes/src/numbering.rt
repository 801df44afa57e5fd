// What is to be noted of nodes, by the numbers of its values: of contents that the file has, and of those that a batch adds after them.
ghost use Rattle.std.specs.Prelude.{◌≡◌, All, IfOk, OnOk, Some};
ghost use Rattle.std.specs.List.{flat_map};
ghost use Rattle.object_values.specs.declared.facts.FactDep.{FactDep as FactDepValue};
ghost use Rattle.meaning_records.specs.Tables.{IsValueOf};
ghost use Rattle.meaning_records.specs.Batches.{AreReachedLast, AreRecordsOf, IsNotable, IsRecordOf, fact_values, needed_values, reached_count, value_list};
ghost use Rattle.kept_contents.specs.Added.{AddsAll, AreHeld, contents_with};
ghost use Rattle.kept_contents.specs.Stocks.{IsGrownFrom, values_of_contents};
ghost use Rattle.kept_notes.specs.Loaded.{loaded_deps, record_with};
ghost use Rattle.kept_notes.specs.Numbered.{AreNumberedDeps, IsNumberedDep, is_reached, notes_of};

use crate::loading::{role_before, seen_of, wide};
use kept_contents::{AddedContents, ContentTable, number_value};
use object_values::{
    Copied, Dep, FactDep, Fresh, Memory, Message, NodeRecord, Role, Seq, StoredDep, StoredRecord,
    Value,
};
use std::alloc::Global;

/// What is to be noted, by the numbers of its values, which are added where neither the file nor the batch has them: the records as the file is to have
/// them, and as they are in memory, where they count as checked at the epoch.
pub fn number_records(
    alloc: Global,
    table: &mut ContentTable,
    added: &mut AddedContents,
    fresh: &[Fresh],
    epoch: u64,
) -> Result<(Seq<StoredRecord>, Vec<NodeRecord>), Memory>
    requires added { AreHeld table.old.texts added.old }
    requires may { All IsNotable fresh.now }
    ensures stored { IfOk result (λ made.
        AreRecordsOf (contents_with table.new.contents added.new) made.0 fresh.now) }
    ensures notes { IfOk result (λ made.
        made.1.items ≡ notes_of (Some epoch) made.0 fresh.now) }
    ensures adds { OnOk result (AddsAll table.old.contents (needed_values fresh.now)
        (values_of_contents added.old) (values_of_contents added.new)) }
    ensures held { OnOk result (AreHeld table.new.texts added.new) }
    ensures contents { table.new.contents ≡ table.old.contents }
    ensures texts { IsGrownFrom table.old.texts table.new.texts }
{
    let mut stored = Seq::new(alloc);
    let mut notes = Vec::new(alloc);
    for node in fresh {
        let record = number_record(alloc, table, added, node)?;
        notes.push(noted_record(alloc, &record, node, Some(epoch))?)?;
        stored.push(record)?;
    }
    Ok((stored, notes))
}

/// What is to be noted of a node, by the numbers of its values.
pub fn number_record(
    alloc: Global,
    table: &mut ContentTable,
    added: &mut AddedContents,
    fresh: &Fresh,
) -> Result<StoredRecord, Memory>
    requires added { AreHeld table.old.texts added.old }
    requires last { AreReachedLast fresh.now.fact.deps }
    ensures stored { IfOk result (λ stored.
        IsRecordOf (contents_with table.new.contents added.new) stored fresh.now) }
    ensures adds { OnOk result (AddsAll table.old.contents (fact_values fresh.now.fact)
        (values_of_contents added.old) (values_of_contents added.new)) }
    ensures held { OnOk result (AreHeld table.new.texts added.new) }
    ensures contents { table.new.contents ≡ table.old.contents }
    ensures texts { IsGrownFrom table.old.texts table.new.texts }
{
    let fact = &fresh.fact;
    let reached = count_reached(fact.deps.as_slice())?;
    let value = number_optional(alloc, table, added, &fact.value)?;
    let deps = number_deps(alloc, table, added, fact.deps.as_slice())?;
    Ok(StoredRecord {
        node: fact.node.copy(alloc)?,
        deps,
        reached,
        value,
        own_status: fact.own_status,
        own_messages: copy_messages(alloc, fact.own_messages.as_slice())?,
        status: fresh.present.status,
        messages: copy_messages(alloc, fresh.present.messages.as_slice())?,
        height: fresh.present.height,
    })
}

// How many of the deps are reached sources.
fn count_reached(deps: &[FactDep]) -> Result<u32, Memory>
    ensures { IfOk result (λ count. count ≡ reached_count deps.now) }
{
    let count = deps.iter().filter(|dep| is_reached(dep.role)).count();
    if count > u32::MAX as usize {
        return Err(Memory);
    }
    Ok(count as u32)
}

fn is_reached(role: Role) -> bool
    ensures { result ≡ is_reached role }
{
    match role {
        Role::Reached => true,
        Role::Needed => false,
    }
}

fn number_deps(
    alloc: Global,
    table: &mut ContentTable,
    added: &mut AddedContents,
    deps: &[FactDep],
) -> Result<Seq<StoredDep>, Memory>
    requires { AreHeld table.old.texts added.old }
    ensures deps { IfOk result (λ stored.
        AreNumberedDeps (contents_with table.new.contents added.new) stored deps.now) }
    ensures adds { OnOk result (AddsAll table.old.contents
        (flat_map (λ (d : FactDepValue). value_list d.value) deps.now)
        (values_of_contents added.old) (values_of_contents added.new)) }
    ensures held { OnOk result (AreHeld table.new.texts added.new) }
    ensures contents { table.new.contents ≡ table.old.contents }
    ensures texts { IsGrownFrom table.old.texts table.new.texts }
{
    let mut stored = Seq::new(alloc);
    for dep in deps {
        stored.push(number_dep(alloc, table, added, dep)?)?;
    }
    Ok(stored)
}

fn number_dep(
    alloc: Global,
    table: &mut ContentTable,
    added: &mut AddedContents,
    dep: &FactDep,
) -> Result<StoredDep, Memory>
    requires { AreHeld table.old.texts added.old }
    ensures dep { IfOk result (λ stored.
        IsNumberedDep (contents_with table.new.contents added.new) stored dep.now) }
    ensures adds { OnOk result (AddsAll table.old.contents (value_list dep.now.value)
        (values_of_contents added.old) (values_of_contents added.new)) }
    ensures held { OnOk result (AreHeld table.new.texts added.new) }
    ensures contents { table.new.contents ≡ table.old.contents }
    ensures texts { IsGrownFrom table.old.texts table.new.texts }
{
    let content = number_optional(alloc, table, added, &dep.value)?;
    Ok(StoredDep {
        node: dep.node.copy(alloc)?,
        content,
    })
}

// The number of a value, where there is one.
fn number_optional(
    alloc: Global,
    table: &mut ContentTable,
    added: &mut AddedContents,
    value: &Option<Value>,
) -> Result<Option<u32>, Memory>
    requires { AreHeld table.old.texts added.old }
    ensures number { IfOk result (λ number.
        IsValueOf (contents_with table.new.contents added.new) number value.now) }
    ensures adds { OnOk result (AddsAll table.old.contents (value_list value.now)
        (values_of_contents added.old) (values_of_contents added.new)) }
    ensures held { OnOk result (AreHeld table.new.texts added.new) }
    ensures contents { table.new.contents ≡ table.old.contents }
    ensures texts { IsGrownFrom table.old.texts table.new.texts }
{
    match value {
        Some(value) => Ok(Some(number_value(alloc, table, added, value)?)),
        None => Ok(None),
    }
}

// The messages as a file has them.
fn copy_messages(alloc: Global, messages: &[Message]) -> Result<Seq<Message>, Memory>
    ensures { IfOk result (λ copied. copied ≡ messages.now) }
{
    let mut copied = Seq::new(alloc);
    for message in messages {
        copied.push(message.copy(alloc)?)?;
    }
    Ok(copied)
}

/// The record in memory, which shares its messages with what is to be noted, and was checked at this epoch.
pub fn noted_record(
    alloc: Global,
    stored: &StoredRecord,
    fresh: &Fresh,
    checked: Option<u64>,
) -> Result<NodeRecord, Memory>
    requires { fresh.now.fact.own_messages ≡ stored.now.own_messages }
    ensures { IfOk result (λ noted. noted ≡ record_with stored.now fresh.now.present checked) }
{
    Ok(NodeRecord {
        node: stored.node.copy(alloc)?,
        deps: noted_deps(alloc, stored.deps.as_slice(), stored.reached as usize)?,
        value: wide(stored.value),
        own_status: stored.own_status,
        own_messages: fresh.fact.own_messages.copy(alloc)?,
        present: fresh.present.copy(alloc)?,
        checked,
    })
}

// The deps, of which the last so many are reached.
fn noted_deps(alloc: Global, deps: &[StoredDep], reached: usize) -> Result<Seq<Dep>, Memory>
    ensures { IfOk result (λ noted. noted ≡ loaded_deps reached deps.now) }
{
    let mut noted = Seq::new(alloc);
    let mut more = deps.len();
    for dep in deps {
        more -= 1;
        noted.push(Dep {
            node: dep.node.copy(alloc)?,
            role: role_before(more, reached),
            seen: seen_of(dep.content),
        })?;
    }
    Ok(noted)
}
