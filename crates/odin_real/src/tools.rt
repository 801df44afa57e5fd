// Tools as child programs.
ghost use Rattle.std.specs.Prelude.{◌≡◌, ◌<◌, ◌++◌, ◌∷◌, [], Some, Err, map, length, option_map, string_bytes, vec_len, vec_capacity, IfOk, OnOk, OnErr};
ghost use Rattle.odin_outside.specs.Causes.{once_more, IsCounted};
ghost use Rattle.odin_outside.specs.Spawned.{IsLeastFree, begun, Fails, Ends, LosesAt};
ghost use Rattle.odin_real.specs.Finishes.{Finishes};
ghost use Rattle.odin_real.specs.Paths.{work_path};
ghost use Rattle.odin_real.specs.Seen.{seen_of};
ghost use Rattle.odin_real.specs.Starts.{IsHome, IsCallPath, IsLaunched, JobIsStartable, IsStarted, CanStart};
ghost use Rattle.odin_real.specs.Told.{children_view};
ghost use Rattle.odin_real.specs.Logs.{CountsFailure, FailsWhere};
ghost use Rattle.odin_real.specs.declared.work.Work.TheVariants.{Sessions};

use crate::fault::SystemFault;
use crate::homes::{folder_in, home_or_open};
use crate::mark::FolderMark;
use crate::program::{Started, start_child};
use crate::slots::{end_at, least_free, take_at};
use crate::system::System;
use crate::waits::wait_any;
use crate::work::Work;
use object_values::{Copied, Job, Raw};
use odin_outside::{FinishFault, Running, Spawner, StartFault};
use std::alloc::Global;
use std::io::Stderr;
use std::process::Child;

// A child program that was started, and its folder.
#[derive(Drop)]
struct Begun<S: System> {
    folder: String,
    mark: FolderMark,
    child: Child<S::Started>,
}

/// Child programs, at most 64 at once, each in the folder `WORK/NAME/NUMBER` of the current folder, where WORK is that of [`Work`]. NAME is that of the session: a tool of an earlier
/// one that runs on writes nothing into a folder of this one. NUMBER is that of its start: so a child of a tool that ended writes nothing into the
/// folder of a later one. A child program that has ended is given first, the oldest of those.
#[derive(Drop)]
pub struct ChildTools<S: System + Drop> {
    system: S,
    work: Work,
    home: Option<String>,
    errors: Stderr,
    started: Vec<Started<S>>,
    starts: u64,
    faults: u64,
}

impl<S: System + Drop> ChildTools<S> {
    /// None runs yet. They will run in `odin.work`, and what they write goes to `errors`.
    pub fn new(alloc: Global, system: S, errors: Stderr) -> Self
        ensures idle { result.started.items ≡ [] }
        ensures faults { result.faults ≡ 0 }
        ensures work { result.work ≡ Sessions }
    {
        ChildTools::within(alloc, system, errors, Work::Sessions)
    }

    /// The same of child programs that will run in such a folder, which may not be there yet.
    pub fn within(alloc: Global, system: S, errors: Stderr, work: Work) -> Self
        ensures idle { result.started.items ≡ [] }
        ensures faults { result.faults ≡ 0 }
        ensures work { result.work ≡ work }
    {
        ChildTools {
            system,
            work,
            home: None,
            errors,
            started: Vec::new(alloc),
            starts: 0,
            faults: 0,
        }
    }

    fn count_fault(&mut self)
        ensures counted { IsCounted self.old.faults self.new.faults }
        ensures started { self.new.started ≡ self.old.started }
        ensures starts { self.new.starts ≡ self.old.starts }
        ensures system { self.new.system ≡ self.old.system }
        ensures home { self.new.home ≡ self.old.home }
        ensures work { self.new.work ≡ self.old.work }
    {
        self.faults = self.faults.saturating_add(1);
    }

    // The refusal of a start, which is counted.
    fn refuse(&mut self) -> Result<u32, StartFault>
        ensures result { result ≡ Err StartFault.Failed }
        ensures fails { Fails
            (children_view (map (λ tool. tool.running) self.old.started.items) self.old.starts
            self.old.faults)
            (children_view (map (λ tool. tool.running) self.new.started.items) self.new.starts
            self.new.faults) }
        ensures system { self.new.system ≡ self.old.system }
        ensures home { self.new.home ≡ self.old.home }
        ensures work { self.new.work ≡ self.old.work }
    {
        self.count_fault();
        Err(StartFault::Failed)
    }

    // The path of the folder of the next start, in that of the session, which is made where there is none.
    fn next_folder(&mut self, alloc: Global) -> Result<String, SystemFault>
        ensures place { IfOk result (λ folder.
            IsCallPath (option_map string_bytes self.new.home) self.old.starts
            (string_bytes folder) (S.held self.old.system) (S.held self.new.system)) }
        ensures home { IsHome (work_path self.old.work) (option_map string_bytes self.old.home)
            (option_map string_bytes self.new.home) }
        ensures counts { CountsFailure SystemFault.Memory (S.log self.old.system)
            (S.log self.new.system) result }
        ensures work { self.new.work ≡ self.old.work }
        ensures started { self.new.started ≡ self.old.started }
        ensures starts { self.new.starts ≡ self.old.starts }
        ensures faults { self.new.faults ≡ self.old.faults }
    {
        let home = home_or_open(self.home.take(), &mut self.system, alloc, self.work)?;
        let folder = folder_in(alloc, home.as_str(), self.starts);
        self.home = Some(home);
        Ok(folder?)
    }

    // Starts the child program of a job in the folder of the next start, and gives that.
    fn begin(&mut self, alloc: Global, job: &Job) -> Result<Begun<S>, SystemFault>
        ensures launched { IfOk result (λ begun.
            IsLaunched (option_map string_bytes self.new.home) self.old.starts job.now
            (string_bytes begun.folder) (S.held self.old.system) (S.held self.new.system)
            (S.log self.old.system) (S.log self.new.system)) }
        ensures home { IsHome (work_path self.old.work) (option_map string_bytes self.old.home)
            (option_map string_bytes self.new.home) }
        ensures fails { FailsWhere (JobIsStartable job.now) SystemFault.Memory
            (S.log self.old.system) (S.log self.new.system) result }
        ensures work { self.new.work ≡ self.old.work }
        ensures started { self.new.started ≡ self.old.started }
        ensures starts { self.new.starts ≡ self.old.starts }
        ensures faults { self.new.faults ≡ self.old.faults }
    {
        let folder = self.next_folder(alloc)?;
        let (mark, child) = start_child(
            &mut self.system,
            self.errors,
            alloc,
            folder.as_str(),
            job,
        )?;
        Ok(Begun {
            folder,
            mark,
            child,
        })
    }

    // Makes room for one more child program that runs.
    fn make_room(&mut self) -> Result<(), StartFault>
        ensures room { OnOk result (vec_len self.new.started < vec_capacity self.new.started) }
        ensures items { self.new.started.items ≡ self.old.started.items }
        ensures memory { OnErr result (result ≡ Err StartFault.Memory) }
        ensures starts { self.new.starts ≡ self.old.starts }
        ensures faults { self.new.faults ≡ self.old.faults }
        ensures system { self.new.system ≡ self.old.system }
        ensures home { self.new.home ≡ self.old.home }
        ensures work { self.new.work ≡ self.old.work }
    {
        match self.started.reserve(1) {
            Ok(()) => Ok(()),
            Err(_) => Err(StartFault::Memory),
        }
    }

    // Adds a child program that runs. Room for it was made before it was started, so that none is lost.
    fn add(&mut self, tool: Started<S>)
        requires { vec_len self.old.started < vec_capacity self.old.started }
        ensures tools { self.new.started.items ≡ self.old.started.items ++ tool ∷ [] }
        ensures starts { self.new.starts ≡ once_more self.old.starts }
        ensures faults { self.new.faults ≡ self.old.faults }
        ensures system { self.new.system ≡ self.old.system }
        ensures home { self.new.home ≡ self.old.home }
        ensures work { self.new.work ≡ self.old.work }
    {
        let _ = self.started.push(tool);
        self.starts = self.starts.saturating_add(1);
    }

    /// Waits for the end of each that runs, and gives its result up. Then the folder of the session is removed, as far as it can be. This is
    /// called at the end of the program, so that no tool writes after it.
    pub fn wait_rest(&mut self, alloc: Global)
        ensures none { self.new.started.items ≡ [] }
        ensures starts { self.new.starts ≡ self.old.starts }
        ensures faults { self.new.faults ≡ self.old.faults }
    {
        while let Some(mut tool) = self.started.pop() {
            tool.give_up(alloc, &mut self.system);
        }
        if let Some(home) = self.home.take() {
            self.system.close(alloc, home.as_str());
        }
    }
}

impl<S: System + Drop> Spawner for ChildTools<S> {
    ghost use Rattle.std.specs.Prelude.{map};
    ghost use Rattle.odin_real.specs.Told.{children_view};

    ghost told = { λ s. children_view (map (λ tool. tool.running) s.started.items) s.starts s.faults };

    fn start(&mut self, alloc: Global, job: &Job) -> Result<u32, StartFault>
        ensures slot { let told = ⟦<ChildTools<S> as Spawner>⟧.told in
            IfOk result (IsLeastFree (told self.old).running) }
        ensures ok { let told = ⟦<ChildTools<S> as Spawner>⟧.told in
            IfOk result (λ slot. told self.new ≡ begun (told self.old) slot job.now) }
        ensures failed { let told = ⟦<ChildTools<S> as Spawner>⟧.told in
            result ≡ Err StartFault.Failed → Fails (told self.old) (told self.new) }
        ensures memory { let told = ⟦<ChildTools<S> as Spawner>⟧.told in
            result ≡ Err StartFault.Memory → told self.new ≡ told self.old }
        ensures started { IfOk result (λ slot. IsStarted (map seen_of self.old.started.items)
            (map seen_of self.new.started.items) (option_map string_bytes self.new.home)
            self.old.starts slot job.now (S.held self.old.system) (S.held self.new.system)
            (S.log self.old.system) (S.log self.new.system)) }
        ensures home { IsHome (work_path self.old.work) (option_map string_bytes self.old.home)
            (option_map string_bytes self.new.home) }
        ensures fails { FailsWhere
            (CanStart (map (λ tool. tool.running) self.old.started.items) job.now)
            StartFault.Memory (S.log self.old.system) (S.log self.new.system) result }
        ensures work { self.new.work ≡ self.old.work }
    {
        let Some(slot) = least_free(self.started.as_slice()) else {
            return self.refuse();
        };
        // The job is copied before the start, since what runs is told by its jobs until it ends, and after a start nothing may fail.
        let kept = job.copy(alloc)?;
        self.make_room()?;
        match self.begin(alloc, job) {
            Ok(
                Begun {
                    folder,
                    mark,
                    child,
                },
            ) => {
                let running = Running { slot, job: kept };
                self.add(Started {
                    running,
                    folder,
                    mark,
                    child,
                });
                Ok(slot)
            }
            Err(SystemFault::Memory) => Err(StartFault::Memory),
            Err(SystemFault::Failed) => self.refuse(),
        }
    }

    fn finish(&mut self, alloc: Global) -> Result<(u32, Raw), FinishFault>
        requires { 0 < length (⟦<ChildTools<S> as Spawner>⟧.told self.old).running }
        ensures ok { let told = ⟦<ChildTools<S> as Spawner>⟧.told in
            IfOk result (λ end. Ends (told self.old) end.0 end.1 (told self.new)) }
        ensures lost { let told = ⟦<ChildTools<S> as Spawner>⟧.told in
            LosesAt (told self.old) (told self.new) result }
        ensures memory { let told = ⟦<ChildTools<S> as Spawner>⟧.told in
            result ≡ Err FinishFault.Memory → told self.new ≡ told self.old }
        ensures finishes { Finishes (map seen_of self.old.started.items)
            (map seen_of self.new.started.items) (S.held self.old.system)
            (S.held self.new.system) (S.log self.old.system) (S.log self.new.system) result }
        ensures home { self.new.home ≡ self.old.home }
        ensures work { self.new.work ≡ self.old.work }
    {
        let place = wait_any(&self.system, &mut self.started);
        match end_at(&mut self.started, place, alloc, &mut self.system) {
            Ok(raw) => Ok((take_at(&mut self.started, place), raw)),
            Err(SystemFault::Memory) => Err(FinishFault::Memory),
            Err(SystemFault::Failed) => {
                self.count_fault();
                Err(FinishFault::Failed(take_at(&mut self.started, place)))
            }
        }
    }

    fn running(&self) -> usize {
        self.started.len()
    }
}
