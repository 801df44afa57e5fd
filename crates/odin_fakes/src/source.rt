// Input that stands in memory.
ghost use Rattle.std.specs.Prelude.{◌≡◌, ◌<◌, [], length, take, Some, IfOk};

use object_values::Bytes;
use odin_outside::{Failed, Source};
use std::marker::Model;

/// Input that stands in memory, and is given in pieces. It never fails.
#[derive(Drop)]
pub struct MemSource {
    bytes: Bytes,
    at: usize,
    piece: usize,
}

impl Model for MemSource {
    ghost use Rattle.std.specs.Prelude.{◌<◌, ◌≤◌, length, drop};
    ghost use Rattle.odin_fakes.specs.Input.{Input};

    ghost Value = { Input };

    ghost view = { λ s. record { left = drop s.at s.bytes; piece = s.piece } };

    ghost invariant = { λ s. (s.at ≤ length s.bytes) × (0 < s.piece) };
}

impl MemSource {
    /// Gives these bytes, at most `piece` of them at once.
    pub fn new(bytes: Bytes, piece: usize) -> Self
        requires { 0 < piece }
        ensures { result ≡ record { left = bytes; piece = piece } }
    {
        MemSource {
            bytes,
            at: 0,
            piece,
        }
    }
}

impl Source for MemSource {
    ghost use Rattle.odin_fakes.specs.Input.{input_after, given_count};

    ghost left = { λ s. Some s.left };

    ghost faults = { λ _. 0 };

    fn read(&mut self, into: &mut [u8]) -> Result<usize, Failed>
        requires { 0 < length into.old }
        ensures count { result ≡ Ok (given_count self.old (length into.old)) }
        ensures bytes { IfOk result (λ n. take n into.new ≡ take n self.old.left) }
        ensures end { IfOk result (λ n. n ≡ 0 → self.old.left ≡ []) }
        ensures rest { IfOk result (λ n. self.new ≡ input_after n self.old) }
    {
        let rest = &self.bytes.as_slice()[self.at..];
        let count = rest.len().min(into.len()).min(self.piece);
        into[..count].copy_from_slice(&rest[..count]);
        self.at += count;
        Ok(count)
    }
}
