// The writing anew of a store of which little lives.
ghost use Rattle.std.specs.Prelude.{◌≡◌, ◌<◌, Ok, false, IfOk, IfErr, IsTrue, IsFalse};
ghost use Rattle.odin_journal.specs.Faults.{JournalFaultIsCounted, IsReadFault, nowhere};
ghost use Rattle.odin_journal.specs.Rest.{IsReady};
ghost use Rattle.odin_journal.specs.Rewrites.{IsLetBe};
ghost use Rattle.odin_store.specs.Compacting.{wasteful_size, CompactsWhere, IsWasteful, LeavesCompacted, WorksForCopy};
ghost use Rattle.odin_store.specs.OnDisk.{IsSame, StoreAfter};

use crate::store::Store;
use meaning_records::laws::{last_were_noted, live_text_is_one};
use object_values::Memory;
use odin_journal::JournalFault;
use odin_outside::Disk;
use std::alloc::Global;

// A store whose records end before this is not wasteful: to write so little anew gains nothing.
const WASTEFUL_SIZE: u64 = 1_048_576;

impl Store {
    /// Whether more than half of a long file is of no use any more. It takes no memory where the file is short.
    pub fn wasteful(&self, alloc: Global) -> Result<bool, Memory>
        ensures yes { IfOk result (λ wasteful. IsTrue wasteful → IsWasteful self.now) }
        ensures no { IfOk result (λ wasteful. IsFalse wasteful → ¬ IsWasteful self.now) }
        ensures short { self.now.journal.end < wasteful_size → result ≡ Ok false }
    {
        live_text_is_one();
        let end = self.journal.end();
        if end < WASTEFUL_SIZE {
            return Ok(false);
        }
        let text = self
            .kept
            .live_text(alloc, self.graph.as_slice(), &self.sources)?;
        Ok(text < end.saturating_sub(text))
    }

    /// Replaces the records of the file by the live ones. `false` where a copy of these fits in neither place, and then nothing is written.
    pub fn compact<D: Disk>(&mut self, alloc: Global, disk: &mut D) -> Result<bool, JournalFault>
        requires ready { IsReady self.old.journal (D.size_of disk.old) }
        ensures compacts { IfOk result
            (CompactsWhere self.old self.new (D.told disk.old) (D.told disk.new)) }
        ensures any_moment { LeavesCompacted self.old (D.told disk.old) (D.told disk.new) }
        ensures fault { IfErr result (IsReadFault nowhere) }
        ensures same { IsLetBe result → IsSame self.old self.new disk.old disk.new }
        ensures left { StoreAfter self.new (D.size_of disk.new) result }
        ensures works { WorksForCopy self.old (D.told disk.old) (D.told disk.new) }
        ensures cause { JournalFaultIsCounted (D.faults disk.old) (D.faults disk.new) result }
    {
        last_were_noted();
        self.kept.records_fit();
        let copy = self
            .kept
            .copy_live(alloc, self.graph.as_slice(), &self.sources)?;
        if !self.journal.rewrite(alloc, disk, copy.payloads())? {
            return Ok(false);
        }
        self.kept.renumber(copy);
        Ok(true)
    }
}
