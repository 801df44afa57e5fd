// The disk of a load.
ghost use Rattle.std.specs.Prelude.{◌≡◌, ◌≢◌, IfOk, OnOk, OnErr};

use object_values::{Bytes, Memory};
use odin_memory::MemDisk;
use odin_outside::{Disk, Failed};
use std::alloc::Global;
use std::marker::Model;

// The room of the disk: the bytes that are written in all, and the calls.
const MOST_BYTES: usize = 67_108_864;

const MOST_CALLS: usize = 131_072;

/// A file in memory with the room of a load, which also tells the work of the first call that it refused.
pub(crate) struct LoadDisk {
    file: MemDisk,
    lost_bytes: usize,
    lost_calls: usize,
}

impl Model for LoadDisk {
    ghost use Rattle.load_session.specs.Room.{LoadFile, HasRoom};

    ghost Value = { LoadFile };

    ghost view = { λ d. record { file = d.file; lost = record { bytes = d.lost_bytes; calls = d.lost_calls } } };

    ghost invariant = { λ d. HasRoom d.file (record { bytes = d.lost_bytes; calls = d.lost_calls }) };
}

impl Drop for LoadDisk {
    fn drop(self) {
        let LoadDisk {
            file,
            lost_bytes: _,
            lost_calls: _,
        } = self;
        drop(file);
    }
}

// Notes the work of a call that was refused, where it is the first.
fn note<T>(
    bytes: &mut usize,
    calls: &mut usize,
    asked: usize,
    done: Result<T, Failed>,
) -> Result<T, Failed>
    ensures same { result ≡ done }
    ensures ok { OnOk result ((bytes.new ≡ bytes.old) × (calls.new ≡ calls.old)) }
    ensures first { OnErr result (calls.old ≡ 0 → (bytes.new ≡ asked) × (calls.new ≡ 1)) }
    ensures later { OnErr result
        (calls.old ≢ 0 → (bytes.new ≡ bytes.old) × (calls.new ≡ calls.old)) }
{
    if done.is_err() && *calls == 0 {
        *bytes = asked;
        *calls = 1;
    }
    done
}

impl LoadDisk {
    ghost use Rattle.load_session.specs.Room.{empty_disk, PassesRoom};

    pub(crate) fn new(alloc: Global) -> Result<LoadDisk, Memory>
        ensures { IfOk result (λ disk. disk ≡ empty_disk) }
    {
        Ok(LoadDisk {
            file: MemDisk::new(alloc, Bytes::new(alloc), MOST_BYTES, MOST_CALLS)?,
            lost_bytes: 0,
            lost_calls: 0,
        })
    }

    /// No call fails within the room.
    pub(crate) fn fails_past_room(&self)
        ensures { self.now.file.faults ≢ 0 → PassesRoom self.now }
    {
        let _ = &self.file;
    }
}

impl Disk for LoadDisk {
    ghost use Rattle.std.specs.Prelude.{refl, length};
    ghost use Rattle.odin_memory.specs.File.{image_of};
    ghost use Rattle.odin_memory.specs.DiskLaws.{image_is_left, left_now, left_only};
    ghost use Rattle.load_session.specs.Room.{told_of_disk};

    ghost told = { told_of_disk };

    ghost size_of = { λ d. length (image_of d.file) };

    ghost faults = { λ d. d.file.faults };

    ghost sized = { λ d follows. refl };

    ghost reads_image = { λ d follows. image_is_left d.file.first d.file.calls };

    ghost counts_now = { λ d t c follows le left. left_now d.file.first d.file.calls t c le left };

    ghost only_now = { λ d c follows left. left_only d.file.first d.file.calls c left };

    fn size(&mut self) -> Result<u64, Failed> {
        note(
            &mut self.lost_bytes,
            &mut self.lost_calls,
            0,
            self.file.size(),
        )
    }

    fn read(&mut self, at: u64, into: &mut [u8]) -> Result<(), Failed> {
        note(
            &mut self.lost_bytes,
            &mut self.lost_calls,
            0,
            self.file.read(at, into),
        )
    }

    fn write_at(&mut self, at: u64, bytes: &[u8]) -> Result<(), Failed> {
        note(
            &mut self.lost_bytes,
            &mut self.lost_calls,
            bytes.len(),
            self.file.write_at(at, bytes),
        )
    }

    fn cut(&mut self, size: u64) -> Result<(), Failed> {
        note(
            &mut self.lost_bytes,
            &mut self.lost_calls,
            0,
            self.file.cut(size),
        )
    }

    fn sync(&mut self) -> Result<(), Failed> {
        note(
            &mut self.lost_bytes,
            &mut self.lost_calls,
            0,
            self.file.sync(),
        )
    }
}
