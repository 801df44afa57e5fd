// What a folder holds before a child program runs in it, and what is taken from it afterwards.
ghost use Rattle.std.specs.Prelude.{◌≡◌, IsOk, IfOk, OnOk};
ghost use Rattle.std.specs.List.{All};
ghost use Rattle.odin_real.specs.Folders.{laid_out, IsAdded, HasNoSlash, IsFileName, IsPutLeft, AreLeft, SameBut};
ghost use Rattle.odin_real.specs.Logs.{CountsWhere};

use crate::fault::SystemFault;
use crate::mark::FolderMark;
use crate::read::text_of;
use crate::system::System;
use object_values::{Bytes, Copied, Seq, Text};
use odin_outside::FileBody;
use std::alloc::Global;

// The name of a file right in a folder. One with a slash would lead out of it.
fn plain_name(name: &[u8]) -> Result<&str, SystemFault>
    ensures name { IfOk result (λ text. text.now ≡ name.now) }
    ensures plain { IfOk result (λ text. HasNoSlash text.now) }
    ensures given { IsFileName name.now → IsOk result }
{
    if name.contains(&b'/') {
        return Err(SystemFault::Failed);
    }
    text_of(name)
}

fn add_file<S: System>(
    system: &mut S,
    alloc: Global,
    folder: &str,
    file: &FileBody,
) -> Result<(), SystemFault>
    ensures ok { OnOk result (IsAdded file.now
        (S.held system.old folder.now) (S.held system.new folder.now)) }
    ensures others { SameBut folder.now (S.held system.old) (S.held system.new) }
    ensures counts { CountsWhere (IsFileName file.now.name) SystemFault.Memory
        (S.log system.old) (S.log system.new) result }
{
    let name = plain_name(file.name.as_slice())?;
    system.add(alloc, folder, name, file.body.as_slice())
}

/// Makes a folder that holds these files alone, and tells which one it is. What is there is discarded before.
pub fn lay_out<S: System>(
    system: &mut S,
    alloc: Global,
    folder: &str,
    files: &[FileBody],
) -> Result<FolderMark, SystemFault>
    ensures ok { OnOk result (S.held system.new folder.now
        ≡ laid_out files.now (S.held system.old folder.now)) }
    ensures others { SameBut folder.now (S.held system.old) (S.held system.new) }
    ensures counts { CountsWhere (All (λ file. IsFileName file.name) files.now)
        SystemFault.Memory (S.log system.old) (S.log system.new) result }
{
    system.discard(alloc, folder);
    let mark = system.make(folder)?;
    for file in files {
        add_file(system, alloc, folder, file)?;
    }
    Ok(mark)
}

// Adds a file of the folder, where it was left.
fn put_left<S: System>(
    system: &mut S,
    alloc: Global,
    folder: &str,
    name: &Bytes,
    files: &mut Seq<FileBody>,
) -> Result<(), SystemFault>
    ensures ok { OnOk result (IsPutLeft (S.held system.old folder.now) name.now
        files.old files.new) }
    ensures held { S.held system.new ≡ S.held system.old }
    ensures counts { CountsWhere (IsFileName name.now) SystemFault.Memory
        (S.log system.old) (S.log system.new) result }
{
    let plain = plain_name(name.as_slice())?;
    if let Some(body) = system.read(alloc, folder, plain)? {
        let name = name.copy(alloc)?;
        let body = Text::of(body)?;
        files.push(FileBody { name, body })?;
    }
    Ok(())
}

/// Those of the named files that were left in a folder, each cut after 16,777,217 bytes.
pub fn left_in<S: System>(
    system: &mut S,
    alloc: Global,
    folder: &str,
    names: &[Bytes],
) -> Result<Seq<FileBody>, SystemFault>
    ensures left { IfOk result (AreLeft (S.held system.old folder.now) names.now) }
    ensures held { S.held system.new ≡ S.held system.old }
    ensures counts { CountsWhere (All IsFileName names.now) SystemFault.Memory
        (S.log system.old) (S.log system.new) result }
{
    let mut files = Seq::new(alloc);
    for name in names {
        put_left(system, alloc, folder, name, &mut files)?;
    }
    Ok(files)
}
