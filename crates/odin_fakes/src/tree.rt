// Files that stand in memory.
ghost use Rattle.std.specs.Prelude.{◌≡◌, ◌≢◌, Some, map, IfOk};
ghost use Rattle.std.specs.FinMap.{from_entries};
ghost use Rattle.odin_outside.specs.Files.{given_of};
ghost use Rattle.odin_fakes.specs.Entry.{entry_of};
ghost use Rattle.odin_fakes.specs.Trees.{asked};

use object_values::{BODY_LIMIT, Bytes, Memory, Seq};
use odin_outside::{FileBody, Tree, TreeFault};
use std::alloc::Global;
use std::marker::Model;

/// How many bytes of a file are given at most: one more than a text may have, so that a longer one shows.
const LIMIT: usize = BODY_LIMIT + 1;

/// Files that stand in memory. It never fails.
pub struct MemTree {
    files: Seq<FileBody>,
    reads: u64,
}

impl Model for MemTree {
    ghost use Rattle.std.specs.Prelude.{map};
    ghost use Rattle.std.specs.FinMap.{from_entries};
    ghost use Rattle.odin_fakes.specs.Entry.{entry_of};
    ghost use Rattle.odin_fakes.specs.Trees.{FileTree, tree_code};

    ghost Value = { FileTree };

    ghost coded = { tree_code };

    ghost view = { λ t. record { files = from_entries (map entry_of t.files); reads = t.reads } };
}

impl Drop for MemTree {
    fn drop(self) {
        let MemTree { files, reads: _ } = self;
        drop(files);
    }
}

impl MemTree {
    /// Of several files of one name the first one counts.
    pub fn new(files: Seq<FileBody>) -> Self
        ensures { result ≡ record { files = from_entries (map entry_of files); reads = 0 } }
    {
        MemTree { files, reads: 0 }
    }

    // The file of a name, cut at the limit.
    fn find(&self, alloc: Global, name: &[u8]) -> Result<Option<Bytes>, Memory>
        ensures { IfOk result (λ answer. answer ≡ given_of self.now.files name.now) }
    {
        for file in self.files.as_slice() {
            if file.name.as_slice() == name {
                let body = file.body.as_slice();
                let given = Bytes::from_slice(alloc, &body[..body.len().min(LIMIT)])?;
                return Ok(Some(given));
            }
        }
        Ok(None)
    }
}

impl Tree for MemTree {
    ghost files = { λ t. Some t.files };

    ghost faults = { λ _. 0 };

    ghost reads = { λ t. t.reads };

    fn read(&mut self, alloc: Global, name: &[u8]) -> Result<Option<Bytes>, TreeFault>
        ensures ok { IfOk result (λ answer. answer ≡ given_of self.old.files name.now) }
        ensures only { result ≢ Err TreeFault.Failed }
        ensures counted { self.new ≡ asked self.old }
    {
        self.reads = self.reads.saturating_add(1);
        Ok(self.find(alloc, name)?)
    }
}
