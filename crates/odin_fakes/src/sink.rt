// Output that is kept in memory.
ghost use Rattle.std.specs.Prelude.{◌≡◌, ◌↔◌, ◌<◌, ◌+◌, [], length, take, Some, IfOk, IsErr, OnOk, OnErr};
ghost use Rattle.odin_outside.specs.Causes.{HasCause};
ghost use Rattle.odin_fakes.specs.Output.{refused, taken_count, output_after};

use object_values::Memory;
use odin_outside::{Failed, Sink};
use std::alloc::Global;
use std::marker::Model;

/// Output that is kept in memory, as far as there is room. A write fails exactly where no room is left.
#[derive(Drop)]
pub struct MemSink {
    taken: Vec<u8>,
    piece: usize,
    room: usize,
    faults: u64,
}

impl Model for MemSink {
    ghost use Rattle.std.specs.Prelude.{◌<◌, ◌≤◌, ◌+◌, length, vec_capacity};
    ghost use Rattle.odin_fakes.specs.Output.{Output};

    ghost Value = { Output };

    ghost view = { λ s. record { taken = s.taken.items; piece = s.piece; room = s.room; faults = s.faults } };

    ghost invariant = { λ s. (0 < s.piece) × (length s.taken.items + s.room ≤ vec_capacity s.taken) };
}

impl MemSink {
    /// Takes at most `piece` bytes at once, and has no room yet.
    pub fn new(alloc: Global, piece: usize) -> Self
        requires { 0 < piece }
        ensures { result ≡ record { taken = []; piece = piece; room = 0; faults = 0 } }
    {
        MemSink {
            taken: Vec::new(alloc),
            piece,
            room: 0,
            faults: 0,
        }
    }

    /// Makes room for so many more bytes.
    pub fn reserve(&mut self, room: usize) -> Result<(), Memory>
        ensures ok { OnOk result (self.new ≡ record self.old { room = self.old.room + room }) }
        ensures err { OnErr result (self.new ≡ self.old) }
    {
        let whole = self.room.checked_add(room).ok_or(Memory)?;
        self.taken.reserve(whole)?;
        self.room = whole;
        Ok(())
    }

    /// What was taken.
    pub fn taken(&self) -> &[u8]
        ensures { result.now ≡ self.now.taken }
    {
        &self.taken
    }
}

impl Sink for MemSink {
    ghost taken = { λ s. Some s.taken };

    ghost faults = { λ s. s.faults };

    fn write(&mut self, bytes: &[u8]) -> Result<usize, Failed>
        requires { 0 < length bytes.now }
        ensures fails { IsErr result ↔ (self.old.room ≡ 0) }
        ensures count { IfOk result (λ n. n ≡ taken_count self.old (length bytes.now)) }
        ensures some { IfOk result (λ n. 0 < n) }
        ensures ok { IfOk result (λ n. self.new ≡ output_after (take n bytes.now) self.old) }
        ensures err { OnErr result (self.new ≡ refused self.old) }
        ensures cause { HasCause self.old.faults self.new.faults result }
    {
        let count = bytes.len().min(self.piece).min(self.room);
        if count == 0 || self.taken.extend_from_slice(&bytes[..count]).is_err() {
            self.faults = self.faults.saturating_add(1);
            return Err(Failed);
        }
        self.room -= count;
        Ok(count)
    }
}
