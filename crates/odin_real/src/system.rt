// What child programs need of the system, path by path.
ghost use Rattle.std.specs.Prelude.{◌≡◌, ⊤, None, Some, Ok, IfOk, OnOk, IfSome};
ghost use Rattle.std.specs.Process.{child_status};
ghost use Rattle.odin_real.specs.Folders.{FoldersTold, removed, FolderIsMade, IsAdded, IsFoundInFolder, HasNoSlash, IsToldOf, SameBut};
ghost use Rattle.odin_real.specs.Logs.{Log, CountsFailure, LogsEnd, LogsWhere, launch_event, launch_of, settle_event, InheritsEnvironment};

use crate::fault::SystemFault;
use crate::mark::FolderMark;
use object_values::Bytes;
use std::alloc::Global;
use std::io::Stderr;
use std::process::{Child, Command, ExitStatus, OpenProcess};
use std::time::Duration;

/// What child programs need of the system. A path is one from the current folder.
pub trait System {
    type Started: OpenProcess + Drop;

    /// What stands at each path, where it is told: nothing, or a folder with these files.
    ghost held: { Self → FoldersTold };

    /// What the system did, where it is told.
    ghost log: { Self → Log };

    /// A random number.
    fn draw(&mut self) -> Result<u64, SystemFault>
        ensures held { held self.new ≡ held self.old }
        ensures counts { CountsFailure SystemFault.Memory (log self.old) (log self.new) result };

    /// Makes the folder of a session in the folder `work`, which is made where there is none, and holds its lock from now on. Where `work` is no
    /// folder, but a link to one too, this fails, and what is at its other end isn't touched. What else is in `work` and is locked by none is removed
    /// as far as it can be: it is of sessions that ended, and nothing is told of it.
    fn open(&mut self, alloc: Global, work: &str, home: &str) -> Result<(), SystemFault>
        ensures others { SameBut home.now (held self.old) (held self.new) }
        ensures counts { CountsFailure SystemFault.Memory (log self.old) (log self.new) result };

    /// Removes the folder of a session, as far as it can be, and gives its lock up.
    fn close(&mut self, alloc: Global, home: &str);

    /// Removes what stands at a path right in the folder of a session: nothing, a file, a link and not what it leads to, or a folder with all that it holds.
    /// What can't be removed is moved out of the way. Where not even that can be done it stays, but no clause says so: a later `make` fails then.
    fn discard(&mut self, alloc: Global, path: &str)
        ensures gone { held self.new path.now ≡ removed (held self.old path.now) }
        ensures others { SameBut path.now (held self.old) (held self.new) }
        ensures log { log self.new ≡ log self.old };

    /// Makes a folder where nothing is, and tells which one it is.
    fn make(&mut self, path: &str) -> Result<FolderMark, SystemFault>
        ensures ok { OnOk result (FolderIsMade (held self.old path.now) (held self.new path.now)) }
        ensures others { SameBut path.now (held self.old) (held self.new) }
        ensures counts { CountsFailure SystemFault.Memory (log self.old) (log self.new) result };

    /// Makes a file in a folder. Where it has one of that name already this fails.
    fn add(
        &mut self,
        alloc: Global,
        folder: &str,
        name: &str,
        body: &[u8],
    ) -> Result<(), SystemFault>
        requires { HasNoSlash name.now }
        ensures ok { OnOk result (IsAdded (record { name = name.now; body = body.now })
            (held self.old folder.now) (held self.new folder.now)) }
        ensures others { SameBut folder.now (held self.old) (held self.new) }
        ensures counts { CountsFailure SystemFault.Memory (log self.old) (log self.new) result };

    /// The first 16,777,217 bytes of a file in a folder, or all where it is shorter. `None` is said where there is no such file; a link is none.
    fn read(
        &mut self,
        alloc: Global,
        folder: &str,
        name: &str,
    ) -> Result<Option<Bytes>, SystemFault>
        requires { HasNoSlash name.now }
        ensures found { IfOk result (IsFoundInFolder (held self.old folder.now) name.now) }
        ensures held { held self.new ≡ held self.old }
        ensures counts { CountsFailure SystemFault.Memory (log self.old) (log self.new) result };

    /// Whether a folder has anything of a name: a file, a folder, a link or whatever else.
    fn has(&mut self, alloc: Global, folder: &str, name: &str) -> Result<bool, SystemFault>
        requires { HasNoSlash name.now }
        ensures found { IfOk result (IsToldOf (held self.old folder.now) name.now) }
        ensures held { held self.new ≡ held self.old }
        ensures counts { CountsFailure SystemFault.Memory (log self.old) (log self.new) result };

    /// Starts a program in a folder. Its input is empty, and its output and its errors go to `errors`. What the folder has while it runs isn't told.
    fn spawn(
        &mut self,
        command: Command,
        folder: &str,
        errors: Stderr,
    ) -> Result<Child<Self::Started>, SystemFault>
        requires { InheritsEnvironment command }
        ensures untold { OnOk result (held self.new folder.now ≡ None) }
        ensures others { SameBut folder.now (held self.old) (held self.new) }
        ensures launches { LogsWhere ⊤ (launch_event (launch_of command
            (held self.old folder.now))) SystemFault.Memory (log self.old) (log self.new) result };

    /// Waits for the end of a program that runs in a folder: what that has then is told. A status that was told before is told again.
    fn wait(
        &mut self,
        child: &mut Child<Self::Started>,
        folder: &str,
    ) -> Result<ExitStatus, SystemFault>
        ensures again { IfSome (child_status child.old) (λ told. result ≡ Ok told) }
        ensures stays { IfSome (child_status child.old)
            (λ told. child_status child.new ≡ Some told) }
        ensures kept { IfOk result (λ status. child_status child.new ≡ Some status) }
        ensures others { SameBut folder.now (held self.old) (held self.new) }
        ensures told { LogsEnd folder.now (held self.new folder.now)
            (log self.old) (log self.new) result };

    /// Fails where a folder isn't the one of the mark, or where its disk is full: a small file is written there and synced. So what was left there is
    /// what the program left, and nothing was cut for want of room.
    fn settle(&mut self, alloc: Global, folder: &str, mark: FolderMark) -> Result<(), SystemFault>
        ensures held { held self.new ≡ held self.old }
        ensures settles { LogsWhere ⊤ (settle_event folder.now) SystemFault.Memory
            (log self.old) (log self.new) result };

    /// Lets so much time pass.
    fn pause(&self, time: Duration);
}
