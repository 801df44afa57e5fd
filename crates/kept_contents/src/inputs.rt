// The hash and the digest of a call's inputs, for whose texts their numbers in memory stand.
ghost use Rattle.std.specs.Prelude.{◌≡◌, IfNone, IfOk, IfSome, OnOk};
ghost use Rattle.std.specs.List.{fold};
ghost use Rattle.kept_contents.specs.Inputs.{AreHeldParts, IsHeldPart, digest_with_head, hash_of_parts, hash_with_head, id_of, input_fed};
ghost use Rattle.kept_contents.specs.Stocks.{IsGrownFrom};

use crate::table::ContentTable;
use content_store::ShaHasher;
use object_values::{CallPart, Memory};
use std::alloc::Global;
use std::hash::{FoldHasher, Hash, Hasher};

/// A quick hash of inputs. `None` where a text of theirs isn't held.
pub(crate) fn hash_parts(table: &ContentTable, parts: &[CallPart]) -> Option<u64>
    ensures hash { IfSome result (λ hash. hash ≡ hash_of_parts table.now.texts parts.now) }
    ensures held { IfSome result (λ _. AreHeldParts table.now.texts parts.now) }
    ensures none { IfNone result (¬ AreHeldParts table.now.texts parts.now) }
{
    let mut state = FoldHasher::default();
    for part in parts {
        let Some(text) = find_text(table, part) else {
            return None;
        };
        feed_part(part, text, &mut state);
    }
    Some(state.finish())
}

// The number in memory of an input's text, where it has one. `None` where that isn't held.
fn find_text(table: &ContentTable, part: &CallPart) -> Option<Option<u64>>
    ensures some { IfSome result (λ text. text ≡ id_of table.now.texts part.now.body) }
    ensures held { IfSome result (λ _. IsHeldPart table.now.texts part.now) }
    ensures none { IfNone result (¬ IsHeldPart table.now.texts part.now) }
{
    match &part.body {
        Some(text) => match table.id_of(text) {
            Some(id) => Some(Some(id)),
            None => None,
        },
        None => Some(None),
    }
}

/// A quick hash of inputs whose texts are held from now on.
pub(crate) fn hold_parts(
    alloc: Global,
    table: &mut ContentTable,
    parts: &[CallPart],
) -> Result<u64, Memory>
    ensures hash { IfOk result (λ hash. hash ≡ hash_of_parts table.new.texts parts.now) }
    ensures held { OnOk result (AreHeldParts table.new.texts parts.now) }
    ensures contents { table.new.contents ≡ table.old.contents }
    ensures texts { IsGrownFrom table.old.texts table.new.texts }
{
    let mut state = FoldHasher::default();
    for part in parts {
        let text = hold_text(alloc, table, part)?;
        feed_part(part, text, &mut state);
    }
    Ok(state.finish())
}

// The number in memory of an input's text, where it has one, which is held from now on.
fn hold_text(
    alloc: Global,
    table: &mut ContentTable,
    part: &CallPart,
) -> Result<Option<u64>, Memory>
    ensures id { IfOk result (λ text. text ≡ id_of table.new.texts part.now.body) }
    ensures held { OnOk result (IsHeldPart table.new.texts part.now) }
    ensures contents { table.new.contents ≡ table.old.contents }
    ensures texts { IsGrownFrom table.old.texts table.new.texts }
{
    match &part.body {
        Some(text) => Ok(Some(table.hold(alloc, text)?)),
        None => Ok(None),
    }
}

/// A quick hash of the number of a head, and of the hash of inputs.
pub(crate) fn hash_with_head(head: u64, hash: u64) -> u64
    ensures { result ≡ hash_with_head head hash }
{
    let mut state = FoldHasher::default();
    state.write_u64(head);
    state.write_u64(hash);
    state.finish()
}

/// A digest of the number of a head, and of inputs.
pub(crate) fn digest_with_head(table: &ContentTable, head: u64, parts: &[CallPart]) -> [u8; 32]
    ensures { result ≡ digest_with_head table.now.texts head parts.now }
{
    let mut state = ShaHasher::default();
    state.write_u64(head);
    for part in parts {
        feed_part(part, text_id(table, part), &mut state);
    }
    state.digest()
}

// The number in memory of an input's text, where there is one.
fn text_id(table: &ContentTable, part: &CallPart) -> Option<u64>
    ensures { result ≡ id_of table.now.texts part.now.body }
{
    match &part.body {
        Some(text) => table.id_of(text),
        None => None,
    }
}

/// Feeds an input, for whose text this number in memory stands.
pub(crate) fn feed_part<H: Hasher>(part: &CallPart, text: Option<u64>, state: &mut H)
    ensures { state.new ≡ fold H.write state.old (input_fed part.now text) }
{
    part.slot.hash(state);
    part.label.hash(state);
    text.hash(state);
}
