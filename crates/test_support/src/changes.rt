// Changes of a store, where they may be made.
ghost use Rattle.std.specs.Prelude.{◌≡◌, OnOk};
ghost use Rattle.odin_journal.specs.Rest.{IsReady};
ghost use Rattle.odin_store.specs.OnDisk.{StoreAfter};

use kept_tables::{fits, is_well_formed};
use object_values::{BODY_LIMIT, Call, Memory, Outcome, Text};
use odin_bytes::Name;
use odin_outside::Disk;
use odin_store::{Store, StoreFault};
use std::alloc::Global;

// The most edits that are counted.
const EDITS: u64 = 0x7fff_ffff_ffff_ffff;

// The name, where it is one.
fn named(alloc: Global, name: &[u8]) -> Result<Name, Memory> {
    match Name::read(alloc, name) {
        Ok(name) => Ok(name),
        Err(_) => Err(Memory),
    }
}

/// Puts a text, where the name is one and the text not too long. `Memory` where they aren't.
pub fn put_named<D: Disk>(
    alloc: Global,
    store: &mut Store,
    disk: &mut D,
    name: &[u8],
    text: &Text,
) -> Result<bool, StoreFault>
    requires { IsReady store.old.journal (D.size_of disk.old) }
    ensures left { StoreAfter store.new (D.size_of disk.new) result }
    ensures graph { OnOk result (store.new.graph ≡ store.old.graph) }
{
    if text.len() > BODY_LIMIT || store.epoch() > EDITS {
        return Err(StoreFault::Memory);
    }
    let name = named(alloc, name)?;
    store.put_source(alloc, disk, &name, text)
}

/// Takes a source away, where the name is one. `Memory` where it isn't.
pub fn drop_named<D: Disk>(
    alloc: Global,
    store: &mut Store,
    disk: &mut D,
    name: &[u8],
) -> Result<bool, StoreFault>
    requires { IsReady store.old.journal (D.size_of disk.old) }
    ensures left { StoreAfter store.new (D.size_of disk.new) result }
{
    if store.epoch() > EDITS {
        return Err(StoreFault::Memory);
    }
    let name = named(alloc, name)?;
    store.drop_source(alloc, disk, &name)
}

/// Keeps a call, where it is well formed, its outcome fits it, and it isn't kept. `false` where it may not be kept.
pub fn keep<D: Disk>(
    alloc: Global,
    store: &mut Store,
    disk: &mut D,
    call: &Call,
    outcome: &Outcome,
) -> Result<bool, StoreFault>
    requires { IsReady store.old.journal (D.size_of disk.old) }
    ensures left { StoreAfter store.new (D.size_of disk.new) result }
{
    if !is_well_formed(call) || !fits(call, outcome) {
        return Ok(false);
    }
    if store.kept().outcome(alloc, call)?.is_some() {
        return Ok(false);
    }
    store.keep_call(alloc, disk, call, outcome)?;
    Ok(true)
}
