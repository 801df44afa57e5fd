// The paths of the folder of a session and of those of its starts.
ghost use Rattle.std.specs.Prelude.{◌≡◌, None, Some, option_map, string_bytes, IfOk, OnErr};
ghost use Rattle.odin_real.specs.Folders.{SameBut};
ghost use Rattle.odin_real.specs.Paths.{IsSession, session_of, home_of, call_path, work_path};
ghost use Rattle.odin_real.specs.Logs.{CountsFailure};
ghost use Rattle.odin_real.specs.Starts.{IsHome};

use crate::fault::SystemFault;
use crate::system::System;
use crate::work::Work;
use std::alloc::{AllocError, Global};

// The name of a session.
fn session_name(alloc: Global, first: u64, second: u64) -> Result<String, AllocError>
    ensures { IfOk result (λ name. string_bytes name ≡ session_of first second) }
{
    format!(in alloc; "{first:016x}{second:016x}")
}

// The path of the folder of a session.
fn home_path(alloc: Global, work: Work, name: &str) -> Result<String, AllocError>
    ensures { IfOk result (λ path. string_bytes path ≡ home_of (work_path work) name.now) }
{
    let work = work.path();
    format!(in alloc; "{work}/{name}")
}

/// The path of the folder of the start of a number.
pub fn folder_in(alloc: Global, home: &str, number: u64) -> Result<String, AllocError>
    ensures { IfOk result (λ path. string_bytes path ≡ call_path home.now number) }
{
    format!(in alloc; "{home}/{number}")
}

// Makes the folder of a session in that of all, under a name that no other has.
fn open_home<S: System>(system: &mut S, alloc: Global, work: Work) -> Result<String, SystemFault>
    ensures named { IfOk result (λ home. IsSession (work_path work) (string_bytes home)) }
    ensures others { IfOk result (λ home.
        SameBut (string_bytes home) (S.held system.old) (S.held system.new)) }
    ensures counts { CountsFailure SystemFault.Memory (S.log system.old) (S.log system.new) result }
{
    let first = system.draw()?;
    let second = system.draw()?;
    let name = session_name(alloc, first, second)?;
    let home = home_path(alloc, work, name.as_str())?;
    system.open(alloc, work.path(), home.as_str())?;
    Ok(home)
}

/// The folder of a session, which is made where there is none yet.
pub fn home_or_open<S: System>(
    home: Option<String>,
    system: &mut S,
    alloc: Global,
    work: Work,
) -> Result<String, SystemFault>
    ensures home { IfOk result (λ path. IsHome (work_path work)
        (option_map string_bytes home) (Some (string_bytes path))) }
    ensures none { OnErr result (home ≡ None) }
    ensures others { IfOk result (λ path.
        SameBut (string_bytes path) (S.held system.old) (S.held system.new)) }
    ensures counts { CountsFailure SystemFault.Memory (S.log system.old) (S.log system.new) result }
{
    match home {
        Some(path) => Ok(path),
        None => open_home(system, alloc, work),
    }
}
