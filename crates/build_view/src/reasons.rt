//! Why a tool is run: the parts by which its call differs from an earlier one.
ghost use Rattle.std.specs.Prelude.{◌≡◌, fold, IfOk, OnOk};
ghost use Rattle.build_view.specs.Reasons as meaning;

use indexmap::IndexSet;
use object_values::{Bytes, CallPart, Copied, Memory, Text};
use std::alloc::Global;

/// Whether both are absent, or have the same bytes.
fn same_body(one: &Option<Text>, other: &Option<Text>) -> bool
    ensures { result ≡ meaning.same_body one.now other.now }
{
    match (one, other) {
        (None, None) => true,
        (Some(one), Some(other)) => one.as_slice() == other.as_slice(),
        _ => false,
    }
}

/// Whether both have the same text under the same label.
fn is_same(one: &CallPart, other: &CallPart) -> bool
    ensures { result ≡ meaning.is_same one.now other.now }
{
    one.label.as_slice() == other.label.as_slice() && same_body(&one.body, &other.body)
}

/// Whether the same is among these parts.
fn has_part(parts: &[CallPart], part: &CallPart) -> bool
    ensures { result ≡ meaning.has_part parts.now part.now }
{
    parts.iter().any(|other| is_same(part, other))
}

/// Adds the label of a part that the others don't have.
fn add_lost(
    alloc: Global,
    part: &CallPart,
    others: &[CallPart],
    labels: &mut IndexSet<Bytes>,
) -> Result<(), Memory>
    ensures { OnOk result
        (labels.new.keys ≡ meaning.with_lost others.now labels.old.keys part.now) }
{
    if !has_part(others, part) {
        labels.insert(part.label.copy(alloc)?)?;
    }
    Ok(())
}

/// Adds the labels of the parts that the others don't have. Where memory is wanted, it leaves what it began.
fn add_all_lost(
    alloc: Global,
    parts: &[CallPart],
    others: &[CallPart],
    labels: &mut IndexSet<Bytes>,
) -> Result<(), Memory>
    ensures { OnOk result
        (labels.new.keys ≡ fold (meaning.with_lost others.now) labels.old.keys parts.now) }
{
    for part in parts {
        add_lost(alloc, part, others, labels)?;
    }
    Ok(())
}

/// The labels of the parts that only one of two calls has: first those that the new one has, then those that are gone.
pub fn changed_labels(
    alloc: Global,
    old: &[CallPart],
    new: &[CallPart],
) -> Result<IndexSet<Bytes>, Memory>
    ensures { IfOk result (λ labels. labels.keys ≡ meaning.changed_labels old.now new.now) }
{
    let mut labels = IndexSet::new(alloc);
    add_all_lost(alloc, new, old, &mut labels)?;
    add_all_lost(alloc, old, new, &mut labels)?;
    Ok(labels)
}
