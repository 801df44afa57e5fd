// A file that is kept in memory, with each call.
ghost use Rattle.std.specs.Prelude.{◌≡◌, ◌↔◌, ◌<◌, ◌+◌, ◌^◌, ◌≤◌, [], length, IfOk, IsOk, IsErr, OnOk, OnErr, vec_capacity};
ghost use Rattle.odin_outside.specs.Causes.{HasCause};
ghost use Rattle.odin_memory.specs.Calls.{written};
ghost use Rattle.odin_memory.specs.Room.{HasRoomFor};

use crate::choice::Choice;
use crate::replay::stopped;
use object_values::{Bytes, Memory};
use odin_outside::{Disk, Failed};
use std::alloc::{AllocError, Global};
use std::marker::Model;

/// A call: a write at an offset of so many bytes, a cut to a size, a sync, or one that changes nothing.
#[derive(Clone, Copy)]
pub enum Entry {
    Write(u64, usize),
    Cut(u64),
    Sync,
    Look,
}

/// A file that is kept in memory, with each call. It has room for so many written bytes and so many calls, and a call fails exactly
/// where it passes that room.
pub struct MemDisk {
    first: Bytes,
    image: Vec<u8>,
    entries: Vec<Entry>,
    written: Vec<u8>,
    bytes: usize,
    room: usize,
    faults: u64,
}

impl Model for MemDisk {
    ghost use Rattle.std.specs.Prelude.{◌≡◌, ◌≤◌, ◌+◌, length, vec_capacity};
    ghost use Rattle.odin_memory.specs.File.{File};
    ghost use Rattle.odin_memory.specs.Calls.{image_after, AreWithin};
    ghost use Rattle.odin_memory.specs.Entries.{calls_from_entries, bytes_of};

    ghost Value = { File };

    ghost view = { λ d. record { first = d.first; calls = calls_from_entries d.entries.items d.written.items; bytes = d.bytes; room = d.room; faults = d.faults } };

    ghost invariant = { λ d. (d.image.items ≡ image_after d.first (calls_from_entries d.entries.items d.written.items))
        × (length d.image.items + d.bytes ≤ vec_capacity d.image)
        × (length d.written.items + d.bytes ≤ vec_capacity d.written)
        × (length d.entries.items + d.room ≤ vec_capacity d.entries)
        × (length d.written.items ≡ bytes_of d.entries.items)
        × AreWithin d.first (calls_from_entries d.entries.items d.written.items) };
}

impl Drop for MemDisk {
    fn drop(self) {
        let MemDisk {
            first,
            image,
            entries,
            written,
            bytes: _,
            room: _,
            faults: _,
        } = self;
        drop(first);
        drop(image);
        drop(entries);
        drop(written);
    }
}

/// A file in memory, as `MemDisk`, that also gives what crashes may leave.
pub type CrashDisk = MemDisk;

/// Writes bytes over an image and after it. It takes no memory where the image has room for them.
pub fn overwrite(image: &mut Vec<u8>, start: usize, bytes: &[u8]) -> Result<(), AllocError>
    requires { start ≤ length image.old.items }
    ensures ok { OnOk result (image.new.items ≡ written image.old.items start bytes.now) }
    ensures room { HasRoomFor bytes.now image.old → IsOk result }
    ensures capacity { vec_capacity image.old ≤ vec_capacity image.new }
{
    let over = bytes.len().min(image.len() - start);
    image[start..start + over].copy_from_slice(&bytes[..over]);
    image.extend_from_slice(&bytes[over..])
}

impl MemDisk {
    ghost use Rattle.odin_memory.specs.File.{new_file, image_of, after_call, refused, IsLeftAt, IsSeenAt, IsUndoneAt, UndoesAt};
    ghost use Rattle.odin_memory.specs.Entries.{IsPlain, call_from_entry};

    /// A file with these bytes, and room for so many bytes to be written in all and for so many calls.
    pub fn new(alloc: Global, image: Bytes, bytes: usize, calls: usize) -> Result<Self, Memory>
        ensures { IfOk result (λ disk. disk ≡ new_file image bytes calls) }
    {
        let mut now = image.as_slice().to_vec(alloc)?;
        now.reserve_exact(bytes)?;
        let mut written = Vec::new(alloc);
        written.reserve_exact(bytes)?;
        let mut entries = Vec::new(alloc);
        entries.reserve_exact(calls)?;
        Ok(MemDisk {
            first: image,
            image: now,
            entries,
            written,
            bytes,
            room: calls,
            faults: 0,
        })
    }

    /// What a read gives.
    pub fn image(&self) -> &[u8]
        ensures { result.now ≡ image_of self.now }
    {
        &self.image
    }

    /// How many calls there were.
    pub fn calls(&self) -> usize
        ensures { result ≡ length self.now.calls }
    {
        self.entries.len()
    }

    /// What a stop within a call may leave, by its number; 0 is the time before the first. The digits of the choice in base 8, from
    /// the last one on, say of one write or cut after the other how it is torn, from the oldest since the last sync on: 0 whole, 1
    /// nothing of it is done, 7 and all after it by chance. So 0 picks what a read gives after the call, and where the call is a write or
    /// a cut, the digit 1 after as many 0 as there were such calls since the sync before it picks what a read gave before the call.
    pub fn crash(&self, alloc: Global, moment: u32, choice: u64) -> Result<Bytes, Memory>
        requires { moment ≤ length self.now.calls }
        ensures left { IfOk result (IsLeftAt moment self.now) }
        ensures whole { choice ≡ 0 → IfOk result (IsSeenAt moment self.now) }
        ensures none { UndoesAt choice moment self.now → IfOk result (IsUndoneAt moment self.now) }
    {
        let image = stopped(
            alloc,
            self.first.as_slice(),
            &self.entries,
            &self.written,
            moment as usize,
            Choice::new(choice),
        )?;
        Ok(Bytes::from_vec(image))
    }

    // Counts a fault.
    fn refuse(&mut self) -> Failed
        ensures counted { self.new ≡ refused self.old }
        ensures later { self.old.faults ≤ self.new.faults }
    {
        self.faults = self.faults.saturating_add(1);
        Failed
    }

    // Keeps a call that changes no byte.
    fn keep(&mut self, entry: Entry) -> Result<(), Failed>
        requires { IsPlain entry }
        ensures fails { IsErr result ↔ (self.old.room ≡ 0) }
        ensures ok { OnOk result (self.new ≡ after_call (call_from_entry entry []) 0 self.old) }
        ensures err { OnErr result (self.new ≡ refused self.old) }
        ensures cause { HasCause self.old.faults self.new.faults result }
    {
        if self.room == 0 {
            return Err(self.refuse());
        }
        if self.entries.push(entry).is_err() {
            return Err(self.refuse());
        }
        self.room -= 1;
        Ok(())
    }
}

impl Disk for MemDisk {
    ghost use Rattle.std.specs.Prelude.{◌≡◌, refl, length};
    ghost use Rattle.odin_memory.specs.File.{image_of, after_call, file_after_write, bytes_at, refused, HasNoRoomFor, file_view};
    ghost use Rattle.odin_memory.specs.Calls.{WasCut, Synced, Looked};
    ghost use Rattle.odin_memory.specs.DiskLaws.{image_is_left, left_now, left_only};

    ghost told = { file_view };

    ghost size_of = { λ d. length (image_of d) };

    ghost faults = { λ d. d.faults };

    ghost sized = { λ d follows. refl };

    ghost reads_image = { λ d follows. image_is_left d.first d.calls };

    ghost counts_now = { λ d t c follows le left. left_now d.first d.calls t c le left };

    ghost only_now = { λ d c follows left. left_only d.first d.calls c left };

    fn size(&mut self) -> Result<u64, Failed>
        ensures fails { IsErr result ↔ (self.old.room ≡ 0) }
        ensures size { IfOk result (λ n. n ≡ length (image_of self.old)) }
        ensures ok { OnOk result (self.new ≡ after_call Looked 0 self.old) }
        ensures err { OnErr result (self.new ≡ refused self.old) }
        ensures cause { HasCause self.old.faults self.new.faults result }
    {
        self.keep(Entry::Look)?;
        Ok(self.image.len() as u64)
    }

    fn read(&mut self, at: u64, into: &mut [u8]) -> Result<(), Failed>
        requires { at + length into.old ≤ length (image_of self.old) }
        ensures fails { IsErr result ↔ (self.old.room ≡ 0) }
        ensures bytes { OnOk result (into.new ≡ bytes_at at (length into.old) self.old) }
        ensures ok { OnOk result (self.new ≡ after_call Looked 0 self.old) }
        ensures err { OnErr result (self.new ≡ refused self.old) }
        ensures cause { HasCause self.old.faults self.new.faults result }
    {
        self.keep(Entry::Look)?;
        let start = at as usize;
        let count = into.len();
        into.copy_from_slice(&self.image[start..start + count]);
        Ok(())
    }

    fn write_at(&mut self, at: u64, bytes: &[u8]) -> Result<(), Failed>
        requires inside { at ≤ length (image_of self.old) }
        requires end { at + length bytes.now ≤ 2 ^ 30 }
        ensures fails { IsErr result ↔ HasNoRoomFor bytes.now self.old }
        ensures ok { OnOk result (self.new ≡ file_after_write at bytes.now self.old) }
        ensures err { OnErr result (self.new ≡ refused self.old) }
        ensures cause { HasCause self.old.faults self.new.faults result }
    {
        if self.room == 0 || self.bytes < bytes.len() {
            return Err(self.refuse());
        }
        if self.entries.push(Entry::Write(at, bytes.len())).is_err() {
            return Err(self.refuse());
        }
        if self.written.extend_from_slice(bytes).is_err() {
            return Err(self.refuse());
        }
        if overwrite(&mut self.image, at as usize, bytes).is_err() {
            return Err(self.refuse());
        }
        self.room -= 1;
        self.bytes -= bytes.len();
        Ok(())
    }

    fn cut(&mut self, size: u64) -> Result<(), Failed>
        requires { size ≤ length (image_of self.old) }
        ensures fails { IsErr result ↔ (self.old.room ≡ 0) }
        ensures ok { OnOk result (self.new ≡ after_call (WasCut size) 0 self.old) }
        ensures err { OnErr result (self.new ≡ refused self.old) }
        ensures cause { HasCause self.old.faults self.new.faults result }
    {
        if self.room == 0 {
            return Err(self.refuse());
        }
        if self.entries.push(Entry::Cut(size)).is_err() {
            return Err(self.refuse());
        }
        self.image.truncate(size as usize);
        self.room -= 1;
        Ok(())
    }

    fn sync(&mut self) -> Result<(), Failed>
        ensures fails { IsErr result ↔ (self.old.room ≡ 0) }
        ensures ok { OnOk result (self.new ≡ after_call Synced 0 self.old) }
        ensures err { OnErr result (self.new ≡ refused self.old) }
        ensures cause { HasCause self.old.faults self.new.faults result }
    {
        self.keep(Entry::Sync)
    }
}
