// The input, cut into commands as its bytes come.
ghost use Rattle.std.specs.Prelude.{◌≡◌, ◌<◌, ◌∷◌, [], None, Some, length, OnOk, IfOk};
ghost use Rattle.meaning_texts.specs.Lines.{HasNoLf};
ghost use Rattle.meaning_commands.specs.Streams.{Extends};
ghost use Rattle.odin_shell.specs.Language.{commands};
ghost use Rattle.odin_shell.specs.Held.{Keeps};
ghost use Rattle.odin_shell.specs.Cuts.{CutterTakes, Cuts, IsLastOfInput};

use crate::pending::Pending;
use crate::whole::Whole;
use memchr::memchr;
use object_values::{Bytes, Memory};
use odin_bytes::drop_cr;
use odin_commands::{Command, body_size, read_command};
use std::alloc::Global;

// How many bytes of a line are held: more than the longest command and its CR have.
const HELD: usize = 1026;

/// What is held of a command that is not whole yet: the first bytes of its line, or a command that lacks bytes.
pub(crate) struct Cutter {
    line: Bytes,
    pending: Option<Pending>,
}

impl Drop for Cutter {
    fn drop(self) {
        let Cutter { line, pending } = self;
        drop(line);
        drop(pending);
    }
}

/// The first bytes of a piece: how many, and the command that they make whole.
#[derive(Drop)]
pub(crate) struct Front {
    pub(crate) count: usize,
    pub(crate) whole: Option<Whole>,
}

impl Cutter {
    pub(crate) fn new(alloc: Global) -> Self
        ensures { Keeps result [] }
    {
        Cutter {
            line: Bytes::new(alloc),
            pending: None,
        }
    }

    // Bytes after the line of a command, up to its last one.
    fn take_text(&mut self, held: Pending, piece: &[u8]) -> Result<Front, Memory>
        requires { 0 < length piece.now }
        ensures { IfOk result (Cuts (record self.old { pending = Some held }) piece.now self.new) }
    {
        let count = held.missing.min(piece.len() as u64);
        let bytes = &piece[..count as usize];
        if count < held.missing {
            self.pending = Some(held.hold(bytes)?);
            return Ok(Front {
                count: count as usize,
                whole: None,
            });
        }
        self.pending = None;
        let (command, body) = held.with_bytes(bytes)?;
        Ok(Front {
            count: count as usize,
            whole: Some(Whole { command, body }),
        })
    }

    // Bytes of a line, without an LF. Of a long line the first ones serve.
    fn hold(&mut self, bytes: &[u8]) -> Result<(), Memory>
        requires no_text { self.old.pending ≡ None }
        requires no_lf { HasNoLf bytes.now }
        ensures ok { OnOk result (Extends commands Keeps bytes.now self.old self.new) }
        ensures no_text { self.new.pending ≡ None }
    {
        let room = HELD.saturating_sub(self.line.len()).min(bytes.len());
        self.line.extend_from_slice(&bytes[..room])
    }

    // The LF of a line.
    fn end_line(&mut self, alloc: Global) -> Result<Option<Whole>, Memory>
        requires { self.old.pending ≡ None }
        ensures { IfOk result (λ whole. CutterTakes (10 ∷ []) self.old whole self.new) }
    {
        let command = read_command(alloc, drop_cr(self.line.as_slice()))?;
        self.line.clear();
        if body_size(&command) > 0 {
            self.pending = Some(Pending::new(alloc, command)?);
            return Ok(None);
        }
        Ok(Some(Whole {
            command,
            body: Bytes::new(alloc),
        }))
    }

    // Bytes up to the end of a line, or all where no line ends.
    fn take_line(&mut self, alloc: Global, piece: &[u8]) -> Result<Front, Memory>
        requires some { 0 < length piece.now }
        requires no_text { self.old.pending ≡ None }
        ensures { IfOk result (Cuts self.old piece.now self.new) }
    {
        let Some(at) = memchr(b'\n', piece) else {
            self.hold(piece)?;
            return Ok(Front {
                count: piece.len(),
                whole: None,
            });
        };
        self.hold(&piece[..at])?;
        let whole = self.end_line(alloc)?;
        Ok(Front {
            count: at + 1,
            whole,
        })
    }

    /// Takes the first bytes of a piece, up to the end of a command where one ends in it.
    pub(crate) fn take(&mut self, alloc: Global, piece: &[u8]) -> Result<Front, Memory>
        requires { 0 < length piece.now }
        ensures { IfOk result (Cuts self.old piece.now self.new) }
    {
        match self.pending.take() {
            Some(held) => self.take_text(held, piece),
            None => self.take_line(alloc, piece),
        }
    }

    /// The command of a last line without LF. There is none where the input ends inside a command.
    pub(crate) fn last(&self, alloc: Global) -> Result<Option<Whole>, Memory>
        ensures { IfOk result (IsLastOfInput self.now) }
    {
        if self.pending.is_some() {
            return Ok(None);
        }
        let command = read_command(alloc, drop_cr(self.line.as_slice()))?;
        if body_size(&command) > 0 {
            return Ok(None);
        }
        Ok(Some(Whole {
            command,
            body: Bytes::new(alloc),
        }))
    }
}
