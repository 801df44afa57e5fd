// Commands on sources. The bytes of a reply are made before the change is written.
ghost use Rattle.std.specs.Prelude.{◌≡◌, IfOk, IfErr, OnOk};
ghost use Rattle.meaning_commands.specs.Replies.{reply_text, word_and_number};
ghost use Rattle.odin_journal.specs.Faults.{JournalFaultIsCounted};
ghost use Rattle.odin_store.specs.Held.{puts, drops};
ghost use Rattle.odin_store.specs.OnDisk.{StoreAfter, StoreIsOpen};
ghost use Rattle.odin_store.specs.Changes.{MayPut};
ghost use Rattle.odin_store.specs.Edited.{HasFailed};
ghost use Rattle.odin_engine.specs.Engaged.{GraphStays};
ghost use Rattle.odin_answers.specs.Edits as edits;
ghost use Rattle.odin_answers.specs.Changes.{EditsSource, HasFailedToPut, IsPutText, IsTakenText, MayBeTaken, MayPutCounted, PutsSource};
ghost use Rattle.odin_answers.specs.Edits.{SaysReply, TreeIsAsked, tree_of};

use object_values::{BODY_LIMIT, Bytes, Memory, Seq, Sources, Text};
use odin_bytes::{Name, write_number};
use odin_commands::{Reply, text_of};
use odin_engine::{Engine, StoreFault};
use odin_outside::{Disk, Tree, TreeFault};
use odin_store::laws::changes_follow;
use std::alloc::Global;

/// The longest text of a source, in bytes.
pub const TEXT_LIMIT: u64 = BODY_LIMIT as u64;

// A reply that changes nothing.
fn say(alloc: Global, reply: Reply) -> Result<Bytes, StoreFault>
    ensures ok { IfOk result (λ bytes. bytes ≡ reply_text reply) }
    ensures err { IfErr result (λ fault. fault ≡ StoreFault.Memory) }
{
    let bytes = text_of(alloc, reply)?;
    Ok(bytes)
}

// Gives a source a text.
fn set_text<D: Disk>(
    alloc: Global,
    engine: &mut Engine,
    disk: &mut D,
    name: &Name,
    text: Bytes,
) -> Result<(), StoreFault>
    requires { MayPut engine.old.store (D.size_of disk.old) text }
    ensures ok { OnOk result (PutsSource D.told name.now text
        engine.old.store engine.new.store disk.old disk.new) }
    ensures err { IfErr result (HasFailed D.told (puts name.now text)
        engine.old.store engine.new.store disk.old disk.new) }
    ensures stays { GraphStays engine.old engine.new }
    ensures left { StoreAfter engine.new.store (D.size_of disk.new) result }
    ensures cause { JournalFaultIsCounted (D.faults disk.old) (D.faults disk.new) result }
{
    let text = Text::of(text)?;
    let _ = engine.put(alloc, disk, name, &text)?;
    Ok(())
}

/// `put`, with the bytes after it where it keeps them.
pub fn put<D: Disk>(
    alloc: Global,
    engine: &mut Engine,
    disk: &mut D,
    name: Name,
    count: u64,
    text: Bytes,
) -> Result<Bytes, StoreFault>
    requires { MayPutCounted engine.old.store (D.size_of disk.old) count text }
    ensures says { let old = engine.old.store.sources.texts in
        let new = engine.new.store.sources.texts in
        IfOk result (SaysReply (λ said. edits.Puts old name count text said new)) }
    ensures ok { OnOk result
        (EditsSource D.told name engine.old.store engine.new.store disk.old disk.new) }
    ensures err { IfErr result (HasFailedToPut D.told (IsPutText count text) name
        engine.old.store engine.new.store disk.old disk.new) }
    ensures stays { GraphStays engine.old engine.new }
    ensures left { StoreAfter engine.new.store (D.size_of disk.new) result }
    ensures cause { JournalFaultIsCounted (D.faults disk.old) (D.faults disk.new) result }
{
    changes_follow::<D>();
    if count > TEXT_LIMIT {
        return say(alloc, Reply::RefusedSize);
    }
    // The reply is made before the change: after it nothing may want memory, or a change would stand that no reply tells of.
    let said = Bytes::from_slice(alloc, name.as_slice())?;
    let reply = say(alloc, Reply::Put(said, count))?;
    set_text(alloc, engine, disk, &name, text)?;
    Ok(reply)
}

/// A command on what is no name. Its name is refused before its size is, so it doesn't matter how many bytes stand after its line.
pub fn refuse_name(alloc: Global, _count: u64) -> Result<Bytes, Memory>
    ensures { IfOk result (λ bytes. bytes ≡ reply_text Reply.RefusedName) }
{
    text_of(alloc, Reply::RefusedName)
}

// `take` of what the tree gave.
fn take_file<D: Disk>(
    alloc: Global,
    engine: &mut Engine,
    disk: &mut D,
    name: Name,
    file: Option<Bytes>,
) -> Result<Bytes, StoreFault>
    requires { StoreIsOpen engine.old.store (D.size_of disk.old) }
    ensures says { let old = engine.old.store.sources.texts in
        let new = engine.new.store.sources.texts in
        IfOk result (SaysReply (λ said. edits.TakesFile old name file said new)) }
    ensures ok { OnOk result
        (EditsSource D.told name engine.old.store engine.new.store disk.old disk.new) }
    ensures err { IfErr result (HasFailedToPut D.told (IsTakenText file) name
        engine.old.store engine.new.store disk.old disk.new) }
    ensures stays { GraphStays engine.old engine.new }
    ensures left { StoreAfter engine.new.store (D.size_of disk.new) result }
    ensures cause { JournalFaultIsCounted (D.faults disk.old) (D.faults disk.new) result }
{
    changes_follow::<D>();
    let Some(text) = file else {
        return say(alloc, Reply::NoFile(name.into_bytes()));
    };
    let count = text.len() as u64;
    if count > TEXT_LIMIT {
        return say(alloc, Reply::RefusedSize);
    }
    // Made before the change, as that of a put.
    let said = Bytes::from_slice(alloc, name.as_slice())?;
    let reply = say(alloc, Reply::Took(said, count))?;
    set_text(alloc, engine, disk, &name, text)?;
    Ok(reply)
}

/// `take`. The tree is asked once, whatever comes of it.
pub fn take<D: Disk, T: Tree>(
    alloc: Global,
    engine: &mut Engine,
    disk: &mut D,
    name: Name,
    tree: &mut T,
) -> Result<Bytes, StoreFault>
    requires { StoreIsOpen engine.old.store (D.size_of disk.old) }
    ensures says { let old = engine.old.store.sources.texts in
        let new = engine.new.store.sources.texts in
        let told = tree_of T.Tree in
        IfOk result (SaysReply (λ said.
        edits.Takes old name (told tree.old) said new (told tree.new))) }
    ensures ok { OnOk result
        (EditsSource D.told name engine.old.store engine.new.store disk.old disk.new) }
    ensures err { IfErr result (HasFailedToPut D.told (MayBeTaken (T.files tree.old) name) name
        engine.old.store engine.new.store disk.old disk.new) }
    ensures stays { GraphStays engine.old engine.new }
    ensures left { StoreAfter engine.new.store (D.size_of disk.new) result }
    ensures cause { JournalFaultIsCounted (D.faults disk.old) (D.faults disk.new) result }
    ensures asked { let told = tree_of T.Tree in
        TreeIsAsked (told tree.old) (told tree.new) }
{
    changes_follow::<D>();
    match tree.read(alloc, name.as_slice()) {
        Ok(file) => take_file(alloc, engine, disk, name, file),
        Err(TreeFault::Failed) => say(alloc, Reply::RefusedRead),
        Err(TreeFault::Memory) => Err(StoreFault::Memory),
    }
}

/// `drop`. The text that the source had is given up.
pub fn remove<D: Disk>(
    alloc: Global,
    engine: &mut Engine,
    disk: &mut D,
    name: Name,
) -> Result<Bytes, StoreFault>
    requires { StoreIsOpen engine.old.store (D.size_of disk.old) }
    ensures says { let old = engine.old.store.sources.texts in
        let new = engine.new.store.sources.texts in
        IfOk result (SaysReply (λ said. edits.Removes old name said new)) }
    ensures ok { OnOk result
        (EditsSource D.told name engine.old.store engine.new.store disk.old disk.new) }
    ensures err { IfErr result (HasFailed D.told (drops name)
        engine.old.store engine.new.store disk.old disk.new) }
    ensures stays { GraphStays engine.old engine.new }
    ensures left { StoreAfter engine.new.store (D.size_of disk.new) result }
    ensures cause { JournalFaultIsCounted (D.faults disk.old) (D.faults disk.new) result }
{
    changes_follow::<D>();
    if engine.store().sources().get(name.as_slice()).is_none() {
        return say(alloc, Reply::NoSource(name.into_bytes()));
    }
    let said = Bytes::from_slice(alloc, name.as_slice())?;
    let reply = say(alloc, Reply::Dropped(said))?;
    let _ = engine.remove(alloc, disk, &name)?;
    Ok(reply)
}

// `NAME LEN`.
fn source_line(alloc: Global, name: &[u8], size: usize) -> Result<Bytes, Memory>
    ensures { IfOk result (λ line. line ≡ word_and_number name.now size) }
{
    let mut line = Bytes::from_slice(alloc, name)?;
    line.push(b' ')?;
    write_number(size as u64, &mut line)?;
    Ok(line)
}

// A line for each source.
fn source_lines(alloc: Global, sources: &Sources) -> Result<Seq<Bytes>, Memory>
    ensures { IfOk result (λ lines. lines ≡ edits.source_lines sources.now.texts) }
{
    let mut lines = Seq::new(alloc);
    while let Some((name, text)) = sources.at(lines.len()) {
        lines.push(source_line(alloc, name.as_slice(), text.len())?)?;
    }
    Ok(lines)
}

/// `sources`, each with its length in bytes.
pub fn list(alloc: Global, engine: &Engine) -> Result<Bytes, Memory>
    ensures { let lines = edits.source_lines engine.now.store.sources.texts in
        IfOk result (λ bytes. bytes ≡ reply_text (Reply.Sources lines)) }
{
    let lines = source_lines(alloc, engine.store().sources())?;
    text_of(alloc, Reply::Sources(lines))
}
