// What a record says, with the values themselves.
ghost use Rattle.std.specs.Prelude.{◌≡◌, IfOk, length, map};
ghost use Rattle.std.specs.List.{All};
ghost use Rattle.object_values.specs.declared.records.Dep.{Dep as DepValue};
ghost use Rattle.kept_notes.specs.Facts.{IsNumberIn, IsRecordIn, IsSeenIn, dep_of, fact_of};

use kept_contents::ContentTable;
use object_values::{Copied, Dep, Fact, FactDep, Memory, NodeRecord, Seen, Seq, Value};
use std::alloc::Global;

/// What a record says. It shares the bytes of texts and of parts.
pub fn fact_of(alloc: Global, table: &ContentTable, noted: &NodeRecord) -> Result<Fact, Memory>
    requires { IsRecordIn (length table.now.contents) noted.now }
    ensures { IfOk result (λ fact. fact ≡ fact_of table.now.contents noted.now) }
{
    let node = noted.node.copy(alloc)?;
    let deps = fact_deps(alloc, table, noted.deps.as_slice())?;
    let value = match noted.value {
        Some(number) => Some(table.value(alloc, number)?),
        None => None,
    };
    Ok(Fact {
        node,
        deps,
        value,
        own_status: noted.own_status,
        own_messages: noted.own_messages.copy(alloc)?,
    })
}

fn fact_deps(alloc: Global, table: &ContentTable, deps: &[Dep]) -> Result<Seq<FactDep>, Memory>
    requires { All (λ (d : DepValue). IsSeenIn (length table.now.contents) d.seen) deps.now }
    ensures { IfOk result (λ made. made ≡ map (dep_of table.now.contents) deps.now) }
{
    let mut made = Seq::new(alloc);
    for dep in deps {
        made.push(fact_dep(alloc, table, dep)?)?;
    }
    Ok(made)
}

fn fact_dep(alloc: Global, table: &ContentTable, dep: &Dep) -> Result<FactDep, Memory>
    requires { IsSeenIn (length table.now.contents) dep.now.seen }
    ensures { IfOk result (λ made. made ≡ dep_of table.now.contents dep.now) }
{
    let node = dep.node.copy(alloc)?;
    let value = match dep.seen {
        Seen::Kept(number) => Some(table.value(alloc, number)?),
        _ => None,
    };
    Ok(FactDep {
        node,
        role: dep.role,
        value,
    })
}
