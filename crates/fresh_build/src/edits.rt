// The edits after which the sources are just those that are wanted.
ghost use Rattle.std.specs.Prelude.{◌≡◌, ◌↔◌, ◌++◌, Some, IfOk, OnOk, IsTrue};
ghost use Rattle.std.specs.FinMap.{get, entries};
ghost use Rattle.meaning_texts.specs.Classes.{IsName};
ghost use Rattle.meaning_derive.specs.Given.{AreSources};
ghost use Rattle.fresh_build.specs.Edits.{changes_of, changes_to, drops_to, puts_to, drop_of};
ghost use Rattle.odin_answers.specs.Changes.{source_changes};

use object_values::{Copied, Memory, Seq, Sources, Text};
use odin_bytes::Name;
use std::alloc::Global;

/// An edit of a source.
#[derive(Drop)]
pub(crate) enum Edit {
    Put(Name, Text),
    Remove(Name),
}

/// The edits after which the sources are just those that are wanted. They are made before the first of them is written, so that memory can't run out
/// between two of them for what is known before.
pub(crate) fn edits_to(alloc: Global, old: &Sources, wanted: &Sources) -> Result<Seq<Edit>, Memory>
    requires old { AreSources old.now.texts }
    requires wanted { AreSources wanted.now.texts }
    ensures { IfOk result (λ edits.
        changes_of edits ≡ changes_to wanted.now.texts old.now.texts) }
{
    let mut edits = Seq::new(alloc);
    add_drops(alloc, old, wanted, &mut edits)?;
    add_puts(alloc, old, wanted, &mut edits)?;
    Ok(edits)
}

// Sources that aren't wanted go.
fn add_drops(
    alloc: Global,
    old: &Sources,
    wanted: &Sources,
    edits: &mut Seq<Edit>,
) -> Result<(), Memory>
    requires { AreSources old.now.texts }
    ensures { let drops = drops_to wanted.now.texts (entries old.now.texts) in
        OnOk result (changes_of edits.new ≡ changes_of edits.old ++ drops) }
{
    'sources: for place in 0..old.len() {
        if let Some((name, _)) = old.at(place) {
            add_drop(alloc, name.as_slice(), wanted, edits)?;
        }
    }
    Ok(())
}

// Those that are wanted get their texts.
fn add_puts(
    alloc: Global,
    old: &Sources,
    wanted: &Sources,
    edits: &mut Seq<Edit>,
) -> Result<(), Memory>
    requires { AreSources wanted.now.texts }
    ensures { let puts = puts_to old.now.texts (entries wanted.now.texts) in
        OnOk result (changes_of edits.new ≡ changes_of edits.old ++ puts) }
{
    'sources: for place in 0..wanted.len() {
        if let Some((name, text)) = wanted.at(place) {
            add_put(alloc, name.as_slice(), text, old, edits)?;
        }
    }
    Ok(())
}

// The drop of a source, where it isn't wanted.
fn add_drop(
    alloc: Global,
    name: &[u8],
    wanted: &Sources,
    edits: &mut Seq<Edit>,
) -> Result<(), Memory>
    requires { IsName name.now }
    ensures { let drop = drop_of name.now (get wanted.now.texts name.now) in
        OnOk result (changes_of edits.new ≡ changes_of edits.old ++ drop) }
{
    if wanted.get(name).is_none() {
        edits.push(Edit::Remove(read_name(alloc, name)?))?;
    }
    Ok(())
}

// The put of a source, where it has another text or isn't there.
fn add_put(
    alloc: Global,
    name: &[u8],
    text: &Text,
    old: &Sources,
    edits: &mut Seq<Edit>,
) -> Result<(), Memory>
    requires { IsName name.now }
    ensures { let put = source_changes name.now (get old.now.texts name.now) (Some text.now) in
        OnOk result (changes_of edits.new ≡ changes_of edits.old ++ put) }
{
    if !has_text(old, name, text) {
        edits.push(Edit::Put(read_name(alloc, name)?, text.copy(alloc)?))?;
    }
    Ok(())
}

// Whether the source has this text.
fn has_text(sources: &Sources, name: &[u8], text: &Text) -> bool
    ensures { IsTrue result ↔ (get sources.now.texts name.now ≡ Some text.now) }
{
    match sources.get(name) {
        Some(there) => there.as_slice() == text.as_slice(),
        None => false,
    }
}

// The name of these bytes, which are one: there is no other fault than want of memory.
fn read_name(alloc: Global, text: &[u8]) -> Result<Name, Memory>
    requires { IsName text.now }
    ensures { IfOk result (λ name. name ≡ text.now) }
{
    match Name::read(alloc, text) {
        Ok(name) => Ok(name),
        Err(_) => Err(Memory),
    }
}
