// The whole input of a session.
ghost use Rattle.std.specs.Prelude.{◌≡◌, ◌<◌, ◌≤◌, length, vec_len, take, IfOk, OnErr};
ghost use Rattle.odin_outside.specs.Causes.{HasCause};
ghost use Rattle.odin_outside.specs.Told.{prepended};
ghost use Rattle.meaning_commands.specs.Endings.{IsSpent, piece_limit};
ghost use Rattle.odin_shell.specs.Objects.{source_of, told_by};
ghost use Rattle.odin_shell.specs.Begun.{MayBeginSession, SessionServes};

use crate::ending::Ending;
use crate::session::{Finish, Session};
use object_values::{INPUT_LIMIT, Memory};
use odin_engine::Engine;
use odin_outside::{Disk, Failed, Sink, Source, Spawner, Tree};
use std::alloc::Global;

// How many bytes are read at once, at most.
const PIECE: usize = 65_536;

/// Reads the next bytes, at most so many.
fn read_piece<I: Source>(input: &mut I, buffer: &mut [u8], most: usize) -> Result<usize, Failed>
    requires some { 0 < most }
    requires room { 0 < length buffer.old }
    ensures most { IfOk result (λ n. n ≤ most) }
    ensures bound { IfOk result (λ n. n ≤ length buffer.new) }
    ensures bytes { IfOk result (λ n.
        I.left input.old ≡ prepended (take n buffer.new) (I.left input.new)) }
    ensures end { IfOk result (λ n. n ≡ 0 → IsSpent (I.left input.new)) }
    ensures err { OnErr result (I.left input.new ≡ I.left input.old) }
    ensures cause { HasCause (I.faults input.old) (I.faults input.new) result }
{
    let room = buffer.len().min(most);
    input.read(&mut buffer[..room])
}

// Room for a piece.
fn make_buffer(alloc: Global) -> Result<Vec<u8>, Memory>
    ensures some { IfOk result (λ buffer. 0 < vec_len buffer) }
    ensures few { IfOk result (λ buffer. vec_len buffer ≤ piece_limit) }
{
    Ok(vec![in alloc; 0u8; PIECE]?)
}

// Answers the input piece by piece.
fn serve_pieces<I: Source, O: Sink, T: Tree, S: Spawner, D: Disk>(
    alloc: Global,
    engine: Engine,
    buffer: &mut [u8],
    input: &mut I,
    output: &mut O,
    tree: &mut T,
    tools: &mut S,
    disk: &mut D,
) -> Ending
    requires some { 0 < length buffer.old }
    requires few { length buffer.old ≤ piece_limit }
    requires may { MayBeginSession engine (D.size_of disk.old) (S.told tools.old) }
    ensures { let source = source_of I.Source in
        let told = told_by O.Sink T.Tree S.Spawner in
        let before = told output.old tree.old tools.old disk.old in
        let after = told output.new tree.new tools.new disk.new in
        SessionServes D.Disk engine (source input.old) (source input.new) before after result }
{
    let mut session = Session::new(alloc, engine);
    let mut count: usize = 0;
    while count < INPUT_LIMIT {
        let Ok(size) = read_piece(input, buffer, INPUT_LIMIT - count) else {
            return Ending::Input;
        };
        if size == 0 {
            return match session.finish(alloc, output, tree, tools, disk) {
                Ok(Finish::Whole) => Ending::Whole,
                Ok(Finish::CutShort) => Ending::CutShort,
                Err(stop) => stop.ending(),
            };
        }
        match session.take_piece(alloc, &buffer[..size], output, tree, tools, disk) {
            Ok(()) => count += size,
            Err(stop) => return stop.ending(),
        }
    }
    Ending::TooLong
}

/// Answers the input, as far as it may be read.
pub(crate) fn serve_input<I: Source, O: Sink, T: Tree, S: Spawner, D: Disk>(
    alloc: Global,
    engine: Engine,
    input: &mut I,
    output: &mut O,
    tree: &mut T,
    tools: &mut S,
    disk: &mut D,
) -> Ending
    requires { MayBeginSession engine (D.size_of disk.old) (S.told tools.old) }
    ensures { let source = source_of I.Source in
        let told = told_by O.Sink T.Tree S.Spawner in
        let before = told output.old tree.old tools.old disk.old in
        let after = told output.new tree.new tools.new disk.new in
        SessionServes D.Disk engine (source input.old) (source input.new) before after result }
{
    match make_buffer(alloc) {
        Ok(mut buffer) => {
            serve_pieces(alloc, engine, &mut buffer, input, output, tree, tools, disk)
        }
        Err(_) => Ending::Memory,
    }
}
