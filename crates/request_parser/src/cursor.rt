// A place in the text of an expression, from which bytes are taken.
ghost use Rattle.std.specs.Prelude.{◌≡◌, ◌↔◌, ◌≤◌, [], length, take, drop, position, not, true, IsTrue, IfOk, IfErr};
ghost use Rattle.std.specs.List.{list_all};
ghost use Rattle.meaning_texts.specs.Limits.{word_limit};
ghost use Rattle.request_parser.specs.Runs.{has, IsPast, TakesRun, SkipsByte, TakesWord, HaltsBefore};

use crate::bytes::{Class, Wanted};
use object_values::{Bytes, Memory, WORD_LIMIT};
use std::alloc::Global;
use std::marker::Model;

/// Why a reading stopped. The cursor stands before the byte that can't go on then, or at the end.
#[derive(Clone, Copy)]
pub(crate) enum Stop {
    Unexpected,
    Memory,
}

impl From<Memory> for Stop {
    ghost use Rattle.std.specs.Prelude.{◌≡◌};
    ghost use Rattle.request_parser.specs.declared.cursor.Stop.{Stop};

    ghost from_gives = { λ _ stop. stop ≡ Stop.Memory };

    fn from(_: Memory) -> Self {
        Stop::Memory
    }
}

// A clause sees the bytes that are left.
#[derive(Drop)]
pub(crate) struct Cursor<'t> {
    rest: &'t [u8],
}

impl<'t> Model for Cursor<'t> {
    ghost use Rattle.std.specs.Prelude.{ℕ, List};

    ghost Value = { List ℕ };

    ghost view = { λ cursor. cursor.rest.now };
}

impl<'t> Cursor<'t> {
    pub(crate) fn new(text: &'t [u8]) -> Self
        ensures { result ≡ text.now }
    {
        Cursor { rest: text }
    }

    pub(crate) fn is_at_end(&self) -> bool
        ensures { IsTrue result ↔ (self.now ≡ []) }
    {
        self.rest.is_empty()
    }

    /// How many bytes are left.
    pub(crate) fn left(&self) -> usize
        ensures { result ≡ length self.now }
    {
        self.rest.len()
    }

    /// Takes this byte, where it comes next.
    pub(crate) fn skip(&mut self, byte: u8) -> bool
        ensures { SkipsByte result byte self.old self.new }
    {
        match self.rest.split_first() {
            Some((first, behind)) if *first == byte => {
                self.rest = behind;
                true
            }
            _ => false,
        }
    }

    /// The longest run of bytes of this class, which is taken.
    pub(crate) fn run(&mut self, class: Class) -> &'t [u8]
        ensures { TakesRun (has class) result.now self.old self.new }
    {
        let (run, behind) = self.rest.split_at(run_length(class, self.rest));
        self.rest = behind;
        run
    }

    /// The longest word, which has to be of this class, and is taken.
    pub(crate) fn word(&mut self, alloc: Global, wanted: Wanted) -> Result<Bytes, Stop>
        ensures ok { IfOk result (λ word. TakesWord wanted word self.old self.new) }
        ensures err { IfErr result (HaltsBefore wanted self.old self.new) }
    {
        let start = self.rest;
        let run = self.run(wanted.class());
        if !wanted.begins(run) {
            self.rest = start;
            return Err(Stop::Unexpected);
        }
        if !is_short(run) {
            self.rest = &start[WORD_LIMIT..];
            return Err(Stop::Unexpected);
        }
        Ok(Bytes::from_slice(alloc, run)?)
    }
}

// Whether a run isn't too long for a word.
fn is_short(run: &[u8]) -> bool
    ensures { IsTrue result ↔ (length run.now ≤ word_limit) }
{
    run.len() <= WORD_LIMIT
}

// How many bytes of the class stand at the front.
fn run_length(class: Class, text: &[u8]) -> usize
    ensures within { result ≤ length text.now }
    ensures each { list_all (has class) (take result text.now) ≡ true }
    ensures past { IsPast (has class) (drop result text.now) }
{
    match first_other(class, text) {
        Some(end) => end,
        None => text.len(),
    }
}

// The place of the first byte that is of another class.
fn first_other(class: Class, text: &[u8]) -> Option<usize>
    ensures { result ≡ position (λ b. not (has class b)) text.now }
{
    text.iter().position(|byte| !class.has(*byte))
}
