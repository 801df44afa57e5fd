// A child program: how it is started, and what it leaves.
ghost use Rattle.std.specs.Prelude.{◌≡◌, ◌≢◌, ◌↔◌, None, Some, Err, IfOk, IfErr, OnOk, OnErr, IsErr, IsTrue};
ghost use Rattle.std.specs.Process.{child_status};
ghost use Rattle.odin_real.specs.Ends.{IsEndOf, TellsEnd, EndsAs, Reads, is_lost_end};
ghost use Rattle.odin_real.specs.Finishes.{FolderIsCleared};
ghost use Rattle.odin_real.specs.Folders.{IsGone, laid_out, SameBut};
ghost use Rattle.odin_real.specs.Seen.{seen_of};
ghost use Rattle.odin_real.specs.Starts.{AreWords, JobIsStartable};
ghost use Rattle.odin_real.specs.Told.{IsAsked};
ghost use Rattle.odin_real.specs.Logs.{LogsWhere, launch_event, launch_of, InheritsEnvironment};

use crate::contents::{lay_out, left_in};
use crate::fault::SystemFault;
use crate::mark::FolderMark;
use crate::read::text_of;
use crate::system::System;
use object_values::{Bytes, FileBody, Job, Seq};
use odin_outside::{End, Raw, Running};
use std::alloc::Global;
use std::io::Stderr;
use std::os::unix::process::ExitStatusExt;
use std::process::{Child, Command, ExitStatus};

/// A child program that runs, with its slot, its job, and its folder: the path and which one it is.
#[derive(Drop)]
pub struct Started<S: System> {
    pub running: Running,
    pub folder: String,
    pub mark: FolderMark,
    pub child: Child<S::Started>,
}

// The command of these words in a folder. The program is searched for in PATH, and has the environment of this one.
fn command_of(alloc: Global, folder: &str, words: &[Bytes]) -> Result<Command, SystemFault>
    ensures launch { IfOk result (λ command. launch_of command None
        ≡ record { words = words.now; folder = Some folder.now; holds = None }) }
    ensures inherits { IfOk result InheritsEnvironment }
    ensures failed { AreWords words.now → result ≢ Err SystemFault.Failed }
{
    let [program, others @ ..] = words else {
        return Err(SystemFault::Failed);
    };
    let mut command = Command::new(alloc, text_of(program.as_slice())?)?;
    for word in others {
        command.arg(text_of(word.as_slice())?)?;
    }
    command.current_dir(folder)?;
    Ok(command)
}

// Starts a child program in a folder, which is laid out for it.
fn start_in<S: System>(
    system: &mut S,
    errors: Stderr,
    alloc: Global,
    folder: &str,
    job: &Job,
) -> Result<(FolderMark, Child<S::Started>), SystemFault>
    ensures untold { OnOk result (S.held system.new folder.now ≡ None) }
    ensures others { SameBut folder.now (S.held system.old) (S.held system.new) }
    ensures launches { LogsWhere (JobIsStartable job.now)
        (launch_event (record {
          words = job.now.words;
          folder = Some folder.now;
          holds = laid_out job.now.files (S.held system.old folder.now);
        }))
        SystemFault.Memory (S.log system.old) (S.log system.new) result }
{
    let mark = lay_out(system, alloc, folder, job.files.as_slice())?;
    let command = command_of(alloc, folder, job.words.as_slice())?;
    let child = system.spawn(command, folder, errors)?;
    Ok((mark, child))
}

/// Starts the child program of a job in a folder. Where it can't be started the folder is discarded again.
pub fn start_child<S: System>(
    system: &mut S,
    errors: Stderr,
    alloc: Global,
    folder: &str,
    job: &Job,
) -> Result<(FolderMark, Child<S::Started>), SystemFault>
    ensures untold { OnOk result (S.held system.new folder.now ≡ None) }
    ensures gone { OnErr result (IsGone (S.held system.new folder.now)) }
    ensures others { SameBut folder.now (S.held system.old) (S.held system.new) }
    ensures launches { LogsWhere (JobIsStartable job.now)
        (launch_event (record {
          words = job.now.words;
          folder = Some folder.now;
          holds = laid_out job.now.files (S.held system.old folder.now);
        }))
        SystemFault.Memory (S.log system.old) (S.log system.new) result }
{
    let started = start_in(system, errors, alloc, folder, job);
    if started.is_err() {
        system.discard(alloc, folder);
    }
    started
}

// Whether others ended a program: by SIGHUP, SIGINT, SIGQUIT, SIGKILL or SIGTERM.
fn is_ended_by_others(status: ExitStatus) -> bool
    ensures { result ≡ is_lost_end status }
{
    match status.signal() {
        Some(signal) => { signal == 1 || signal == 2 || signal == 3 || signal == 9 || signal == 15 }
        None => false,
    }
}

// How a child program ended.
fn end_of(status: ExitStatus) -> End
    ensures { IsEndOf status result }
{
    match status.code() {
        Some(code) => End::Exit((code.cast_unsigned() % 256) as u8),
        None => End::Signal,
    }
}

impl<S: System> Started<S> {
    // The outputs that were left in the folder of a program that has ended, where it has an outcome.
    fn outputs(&self, alloc: Global, system: &mut S) -> Result<Seq<FileBody>, SystemFault>
        ensures held { S.held system.new ≡ S.held system.old }
        ensures reads { let tool = seen_of self.now in
            Reads tool.folder tool.running.job.outs (S.held system.old tool.folder)
            (S.log system.old) (S.log system.new) result }
    {
        let folder = self.folder.as_str();
        system.settle(alloc, folder, self.mark)?;
        if system.has(alloc, folder, "no-outcome")? {
            return Err(SystemFault::Failed);
        }
        left_in(system, alloc, folder, self.running.job.outs.as_slice())
    }

    // Waits for the end, and gives what was left in the folder, where it has an outcome.
    fn outcome(&mut self, alloc: Global, system: &mut S) -> Result<Raw, SystemFault>
        ensures asked { IsAsked (seen_of self.old) (seen_of self.new) }
        ensures end { IfOk result (λ raw. TellsEnd (child_status self.new.child) raw.end) }
        ensures others { SameBut (seen_of self.old).folder (S.held system.old)
            (S.held system.new) }
        ensures ends { EndsAs (seen_of self.old) (S.log system.old) (S.log system.new) result }
    {
        let status = system.wait(&mut self.child, self.folder.as_str())?;
        if is_ended_by_others(status) {
            return Err(SystemFault::Failed);
        }
        let files = self.outputs(alloc, system)?;
        Ok(Raw {
            end: end_of(status),
            files,
        })
    }

    /// Waits for the end, and gives what was left in the folder, which is discarded. For want of memory it stays, and the call can be made
    /// again: the end is the same one then.
    pub fn end(&mut self, alloc: Global, system: &mut S) -> Result<Raw, SystemFault>
        ensures asked { IsAsked (seen_of self.old) (seen_of self.new) }
        ensures end { IfOk result (λ raw. TellsEnd (child_status self.new.child) raw.end) }
        ensures cleared { result ≢ Err SystemFault.Memory →
            FolderIsCleared (seen_of self.old) (S.held system.old) (S.held system.new) }
        ensures others { SameBut (seen_of self.old).folder (S.held system.old)
            (S.held system.new) }
        ensures ends { EndsAs (seen_of self.old) (S.log system.old) (S.log system.new) result }
    {
        let ended = self.outcome(alloc, system);
        match ended {
            Err(SystemFault::Memory) => {}
            _ => system.discard(alloc, self.folder.as_str()),
        }
        ended
    }

    /// Waits for the end, and discards what was left in the folder.
    pub fn give_up(&mut self, alloc: Global, system: &mut S)
        ensures others { SameBut (seen_of self.old).folder (S.held system.old)
            (S.held system.new) }
    {
        let _ = system.wait(&mut self.child, self.folder.as_str());
        system.discard(alloc, self.folder.as_str());
    }
}
