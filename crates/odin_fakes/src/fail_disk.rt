// A file in memory that fails by plan.
ghost use Rattle.std.specs.Prelude.{◌≡◌, ◌+◌, ◌^◌, ◌≤◌, length, IfOk, OnOk, OnErr};
ghost use Rattle.odin_outside.specs.Causes.{HasCause, once_more};

use crate::plan::{FailPlan, Failing};
use odin_memory::MemDisk;
use odin_outside::{Disk, Failed};

/// A file in memory that fails by plan, and where it has no room.
pub type FailDisk = Failing<MemDisk>;

// Counts a fault of the file.
fn counted<T>(plan: &mut FailPlan, done: Result<T, Failed>) -> Result<T, Failed>
    ensures same { result ≡ done }
    ensures ok { OnOk result (plan.new ≡ plan.old) }
    ensures err { OnErr result (plan.new ≡ record plan.old { faults = once_more plan.old.faults }) }
    ensures cause { HasCause plan.old.faults plan.new.faults done }
{
    if done.is_err() {
        plan.count_fault();
    }
    done
}

impl Disk for Failing<MemDisk> {
    ghost use Rattle.std.specs.Prelude.{◌≡◌, refl, length};
    ghost use Rattle.odin_memory.specs.File.{bytes_at, image_of, HasNoRoomFor, file_view};
    ghost use Rattle.odin_fakes.specs.FailingFile.{went, went_write, FailsByPlanOrFile};
    ghost use Rattle.odin_memory.specs.Calls.{WasCut, Synced, Looked};
    ghost use Rattle.odin_memory.specs.DiskLaws.{image_is_left, left_now, left_only};

    ghost told = { λ d. file_view d.inner };

    ghost size_of = { λ d. length (image_of d.inner) };

    ghost faults = { λ d. d.plan.faults };

    ghost sized = { λ d follows. refl };

    ghost reads_image = { λ d follows. image_is_left d.inner.first d.inner.calls };

    ghost counts_now = { λ d t c follows le left. left_now d.inner.first d.inner.calls t c le left };

    ghost only_now = { λ d c follows left. left_only d.inner.first d.inner.calls c left };

    fn size(&mut self) -> Result<u64, Failed>
        ensures size { IfOk result (λ n. n ≡ length (image_of self.old.inner)) }
        ensures ok { OnOk result (self.new ≡ went Looked 0 self.old) }
        ensures stops { FailsByPlanOrFile (self.old.inner.room ≡ 0) self.old self.new result }
        ensures cause { HasCause self.old.plan.faults self.new.plan.faults result }
    {
        self.plan.call()?;
        counted(&mut self.plan, self.inner.size())
    }

    fn read(&mut self, at: u64, into: &mut [u8]) -> Result<(), Failed>
        requires { at + length into.old ≤ length (image_of self.old.inner) }
        ensures bytes { OnOk result (into.new ≡ bytes_at at (length into.old) self.old.inner) }
        ensures ok { OnOk result (self.new ≡ went Looked 0 self.old) }
        ensures stops { FailsByPlanOrFile (self.old.inner.room ≡ 0) self.old self.new result }
        ensures cause { HasCause self.old.plan.faults self.new.plan.faults result }
    {
        self.plan.call()?;
        counted(&mut self.plan, self.inner.read(at, into))
    }

    fn write_at(&mut self, at: u64, bytes: &[u8]) -> Result<(), Failed>
        requires inside { at ≤ length (image_of self.old.inner) }
        requires end { at + length bytes.now ≤ 2 ^ 30 }
        ensures ok { OnOk result (self.new ≡ went_write at bytes.now self.old) }
        ensures stops { FailsByPlanOrFile (HasNoRoomFor bytes.now self.old.inner)
            self.old self.new result }
        ensures cause { HasCause self.old.plan.faults self.new.plan.faults result }
    {
        self.plan.call()?;
        counted(&mut self.plan, self.inner.write_at(at, bytes))
    }

    fn cut(&mut self, size: u64) -> Result<(), Failed>
        requires { size ≤ length (image_of self.old.inner) }
        ensures ok { OnOk result (self.new ≡ went (WasCut size) 0 self.old) }
        ensures stops { FailsByPlanOrFile (self.old.inner.room ≡ 0) self.old self.new result }
        ensures cause { HasCause self.old.plan.faults self.new.plan.faults result }
    {
        self.plan.call()?;
        counted(&mut self.plan, self.inner.cut(size))
    }

    fn sync(&mut self) -> Result<(), Failed>
        ensures ok { OnOk result (self.new ≡ went Synced 0 self.old) }
        ensures stops { FailsByPlanOrFile (self.old.inner.room ≡ 0) self.old self.new result }
        ensures cause { HasCause self.old.plan.faults self.new.plan.faults result }
    {
        self.plan.call()?;
        counted(&mut self.plan, self.inner.sync())
    }
}
