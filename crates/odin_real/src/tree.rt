// The files of the current folder.
ghost use Rattle.std.specs.Prelude.{◌≡◌, ◌≤◌, Err, IfOk};
ghost use Rattle.std.specs.Str.{IsUtf8};
ghost use Rattle.odin_outside.specs.Causes.{HasCauseBut, once_more};
ghost use Rattle.odin_outside.specs.Files.{IsGiven};
ghost use Rattle.odin_real.specs.Answers.{tree_fault, faults_after};
ghost use Rattle.odin_real.specs.Opens.{HasOpened};

use crate::fault::SystemFault;
use crate::raw_files::RawFiles;
use crate::read::{read_raw, text_of};
use object_values::Bytes;
use odin_outside::{Tree, TreeFault};
use std::alloc::Global;

/// The files of the current folder, with the count of what could not be read. A name is a path: one that begins with a slash or has
/// `..` in it leads out of the folder.
#[derive(Drop)]
pub struct FolderTree<R: RawFiles + Drop> {
    raw: R,
    reads: u64,
    faults: u64,
}

// Counts a fault, and want of memory not.
fn counted(faults: &mut u64, fault: SystemFault) -> TreeFault
    ensures fault { result ≡ tree_fault fault }
    ensures counted { faults.new ≡ faults_after fault faults.old }
    ensures later { faults.old ≤ faults.new }
{
    match fault {
        SystemFault::Memory => TreeFault::Memory,
        SystemFault::Failed => {
            *faults = faults.saturating_add(1);
            TreeFault::Failed
        }
    }
}

// Reads the file of this name.
fn read_named<R: RawFiles>(
    raw: &mut R,
    alloc: Global,
    name: &[u8],
) -> Result<Option<Bytes>, SystemFault>
    ensures ok { IfOk result (IsGiven (R.bodies raw.old) name.now) }
    ensures other { ¬ IsUtf8 name.now → result ≡ Err SystemFault.Failed }
    ensures kept { R.bodies raw.new ≡ R.bodies raw.old }
    ensures counted { HasOpened (R.opened raw.old) (R.opened raw.new) }
{
    read_raw(raw, alloc, text_of(name)?)
}

impl<R: RawFiles + Drop> FolderTree<R> {
    pub fn new(raw: R) -> Self
        ensures raw { result.raw ≡ raw }
        ensures reads { result.reads ≡ 0 }
        ensures faults { result.faults ≡ 0 }
    {
        FolderTree {
            raw,
            reads: 0,
            faults: 0,
        }
    }
}

impl<R: RawFiles + Drop> Tree for FolderTree<R> {
    ghost files = { λ t. R.bodies t.raw };

    ghost faults = { λ t. t.faults };

    ghost reads = { λ t. t.reads };

    fn read(&mut self, alloc: Global, name: &[u8]) -> Result<Option<Bytes>, TreeFault>
        ensures ok { IfOk result (IsGiven (R.bodies self.old.raw) name.now) }
        ensures kept { R.bodies self.new.raw ≡ R.bodies self.old.raw }
        ensures counted { self.new.reads ≡ once_more self.old.reads }
        ensures cause { HasCauseBut TreeFault.Memory self.old.faults self.new.faults result }
        ensures failed { result ≡ Err TreeFault.Failed
            → self.new.faults ≡ once_more self.old.faults }
        ensures other { ¬ IsUtf8 name.now → result ≡ Err TreeFault.Failed }
        ensures opened { HasOpened (R.opened self.old.raw) (R.opened self.new.raw) }
    {
        self.reads = self.reads.saturating_add(1);
        match read_named(&mut self.raw, alloc, name) {
            Ok(found) => Ok(found),
            Err(fault) => Err(counted(&mut self.faults, fault)),
        }
    }
}
