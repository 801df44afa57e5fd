// A session between two bytes of its input.
ghost use Rattle.std.specs.Prelude.{◌≡◌, ◌+◌, ◌≤◌, ◌<◌, [], length, take, OnOk, IfOk, IfErr};
ghost use Rattle.odin_shell.specs.Held.{Keeps};
ghost use Rattle.odin_shell.specs.Objects.{told_by};
ghost use Rattle.odin_shell.specs.Served.{CountsStop, IsOnward, MayServe};
ghost use Rattle.odin_shell.specs.Sessions.{AdvancesSession, StopsSession, FinishesSession, StopsSessionAtEnd};

use crate::cutter::{Cutter, Front};
use crate::serve::serve_command;
use crate::stop::Stop;
use odin_engine::Engine;
use odin_outside::{Disk, Sink, Spawner, Tree};
use std::alloc::Global;

/// The state between two bytes of the input.
pub(crate) struct Session {
    cutter: Cutter,
    engine: Engine,
}

impl Drop for Session {
    fn drop(self) {
        let Session { cutter, engine } = self;
        drop(cutter);
        drop(engine);
    }
}

/// How the input ended.
#[derive(Clone, Copy)]
pub(crate) enum Finish {
    Whole,
    CutShort,
}

impl Session {
    pub(crate) fn new(alloc: Global, engine: Engine) -> Self
        ensures engine { result.engine ≡ engine }
        ensures held { Keeps result.cutter [] }
    {
        Session {
            cutter: Cutter::new(alloc),
            engine,
        }
    }

    // The first bytes of a piece, and how many.
    fn take_front<O: Sink, T: Tree, S: Spawner, D: Disk>(
        &mut self,
        alloc: Global,
        piece: &[u8],
        output: &mut O,
        tree: &mut T,
        tools: &mut S,
        disk: &mut D,
    ) -> Result<usize, Stop>
        requires some { 0 < length piece.now }
        requires may { MayServe 1 self.old.engine (D.size_of disk.old) (S.told tools.old) }
        ensures ok { let told = told_by O.Sink T.Tree S.Spawner in
            let before = told output.old tree.old tools.old disk.old in
            let after = told output.new tree.new tools.new disk.new in
            IfOk result (λ n. AdvancesSession D.Disk (take n piece.now) before
            self.old after self.new) }
        ensures front { IfOk result (λ n. (0 < n) × (n ≤ length piece.now)) }
        ensures err { let told = told_by O.Sink T.Tree S.Spawner in
            let before = told output.old tree.old tools.old disk.old in
            let after = told output.new tree.new tools.new disk.new in
            IfErr result (λ stop. StopsSession D.Disk stop piece.now before self.old after) }
        ensures counted { IfErr result (λ stop.
            CountsStop stop (D.faults disk.old) (D.faults disk.new)) }
        ensures onward { OnOk result
            (IsOnward D.Disk 1 self.old.engine self.new.engine disk.old disk.new) }
    {
        let Front { count, whole } = self.cutter.take(alloc, piece)?;
        if let Some(whole) = whole {
            serve_command(alloc, &mut self.engine, whole, output, tree, tools, disk)?;
        }
        Ok(count)
    }

    /// Takes the next piece of the input, and answers each command that is whole now.
    pub(crate) fn take_piece<O: Sink, T: Tree, S: Spawner, D: Disk>(
        &mut self,
        alloc: Global,
        piece: &[u8],
        output: &mut O,
        tree: &mut T,
        tools: &mut S,
        disk: &mut D,
    ) -> Result<(), Stop>
        requires { let most = length piece.now in
            MayServe most self.old.engine (D.size_of disk.old) (S.told tools.old) }
        ensures ok { let told = told_by O.Sink T.Tree S.Spawner in
            let before = told output.old tree.old tools.old disk.old in
            let after = told output.new tree.new tools.new disk.new in
            OnOk result (AdvancesSession D.Disk piece.now before self.old after self.new) }
        ensures err { let told = told_by O.Sink T.Tree S.Spawner in
            let before = told output.old tree.old tools.old disk.old in
            let after = told output.new tree.new tools.new disk.new in
            IfErr result (λ stop. StopsSession D.Disk stop piece.now before self.old after) }
        ensures counted { IfErr result (λ stop.
            CountsStop stop (D.faults disk.old) (D.faults disk.new)) }
        ensures onward { let most = length piece.now in
            OnOk result (IsOnward D.Disk most self.old.engine self.new.engine disk.old disk.new) }
    {
        let mut at = 0;
        while at < piece.len() {
            at += self.take_front(alloc, &piece[at..], output, tree, tools, disk)?;
        }
        Ok(())
    }

    /// Answers what is held at the end of the input.
    pub(crate) fn finish<O: Sink, T: Tree, S: Spawner, D: Disk>(
        mut self,
        alloc: Global,
        output: &mut O,
        tree: &mut T,
        tools: &mut S,
        disk: &mut D,
    ) -> Result<Finish, Stop>
        requires { MayServe 1 self.engine (D.size_of disk.old) (S.told tools.old) }
        ensures ok { let told = told_by O.Sink T.Tree S.Spawner in
            let before = told output.old tree.old tools.old disk.old in
            let after = told output.new tree.new tools.new disk.new in
            IfOk result (λ finish. FinishesSession D.Disk finish before self after) }
        ensures err { let told = told_by O.Sink T.Tree S.Spawner in
            let before = told output.old tree.old tools.old disk.old in
            let after = told output.new tree.new tools.new disk.new in
            IfErr result (λ stop. StopsSessionAtEnd D.Disk stop before self after) }
        ensures counted { IfErr result (λ stop.
            CountsStop stop (D.faults disk.old) (D.faults disk.new)) }
        ensures unfailed { OnOk result (D.faults disk.new ≡ D.faults disk.old) }
    {
        let Some(whole) = self.cutter.last(alloc)? else {
            return Ok(Finish::CutShort);
        };
        serve_command(alloc, &mut self.engine, whole, output, tree, tools, disk)?;
        Ok(Finish::Whole)
    }
}
