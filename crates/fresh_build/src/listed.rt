// The sources that are just the listed files.
ghost use Rattle.std.specs.Prelude.{◌≡◌, IfOk, IfErr, OnOk};
ghost use Rattle.std.specs.FinMap.{insert};
ghost use Rattle.meaning_derive.specs.Given.{AreSources};
ghost use Rattle.fresh_build.specs.Listed.{AreFiles, IsFileFault, IsFileText, IsGivenFault, IsGivenText, IsListFault, ListFaultIsCounted};

use crate::fault::ListFault;
use object_values::{BODY_LIMIT, Bytes, Memory, Sources, Text};
use odin_bytes::Name;
use odin_outside::{Tree, TreeFault};
use std::alloc::Global;

/// The sources that are just the listed files, as the tree has them. A name that stands twice counts once, and its file is read once.
pub fn read_listed<T: Tree>(
    alloc: Global,
    tree: &mut T,
    names: &[Name],
) -> Result<Sources, ListFault>
    ensures ok { IfOk result (λ sources.
        AreFiles (T.files tree.old) names.now sources.texts) }
    ensures fit { IfOk result (λ sources. AreSources sources.texts) }
    ensures err { IfErr result (IsListFault (T.files tree.old) names.now) }
    ensures kept { T.files tree.new ≡ T.files tree.old }
    ensures cause { ListFaultIsCounted (T.faults tree.old) (T.faults tree.new) result }
{
    let mut sources = Sources::new(alloc);
    'names: for name in names {
        if sources.get(name.as_slice()).is_none() {
            let text = read_file(alloc, tree, name)?;
            add_source(alloc, &mut sources, name, text)?;
        }
    }
    Ok(sources)
}

// The text of a file.
fn read_file<T: Tree>(alloc: Global, tree: &mut T, name: &Name) -> Result<Text, ListFault>
    ensures ok { IfOk result (IsFileText (T.files tree.old) name.now) }
    ensures err { IfErr result (IsFileFault (T.files tree.old) name.now) }
    ensures kept { T.files tree.new ≡ T.files tree.old }
    ensures cause { ListFaultIsCounted (T.faults tree.old) (T.faults tree.new) result }
{
    match tree.read(alloc, name.as_slice()) {
        Ok(file) => text_of(alloc, name, file),
        Err(TreeFault::Failed) => Err(ListFault::Tree),
        Err(TreeFault::Memory) => Err(ListFault::Memory),
    }
}

// The text of what a tree gave of a file.
fn text_of(alloc: Global, name: &Name, file: Option<Bytes>) -> Result<Text, ListFault>
    ensures ok { IfOk result (IsGivenText file) }
    ensures err { IfErr result (IsGivenFault name.now file) }
{
    let Some(bytes) = file else {
        return Err(ListFault::Missing(copy_name(alloc, name)?));
    };
    if bytes.len() > BODY_LIMIT {
        return Err(ListFault::TooLong(copy_name(alloc, name)?));
    }
    Ok(Text::of(bytes)?)
}

// The bytes of a name.
fn copy_name(alloc: Global, name: &Name) -> Result<Bytes, Memory>
    ensures { IfOk result (λ bytes. bytes ≡ name.now) }
{
    Bytes::from_slice(alloc, name.as_slice())
}

// Gives a name a text.
fn add_source(alloc: Global, sources: &mut Sources, name: &Name, text: Text) -> Result<(), Memory>
    ensures { OnOk result (sources.new.texts ≡ insert sources.old.texts name.now text) }
{
    sources.reserve()?;
    let name = copy_name(alloc, name)?;
    let _ = sources.put(name, text);
    Ok(())
}
