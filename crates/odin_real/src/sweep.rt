// Removes folders, as far as that can be. What is to be removed is moved to HOME/.moved/N first, where N counts what was moved: so nothing
// stands in the way where it can't be removed. The folders in a folder are moved there too before it is removed, so that the work is
// linear, however deep they lie. An error keeps what it is about where it is, and nothing else. No link is followed.
use crate::session::is_alive;
use std::alloc::{AllocError, Global};
use std::fs::{self, File, Permissions};
use std::io;
use std::os::unix::fs::PermissionsExt;
use std::rt::Files;

/// How often a folder is emptied in which there is something again.
const PASSES: u32 = 4;

// The path that what is moved as number N gets.
fn left_path(alloc: Global, home: &str, number: u64) -> Result<String, AllocError> {
    format!(in alloc; "{home}/.moved/{number}")
}

/// Makes the folder for what is moved, in that of a session. The way up from a folder that was moved, which a tool of another session may be in,
/// leads to the folder of no start.
pub fn make_moved<R: Files>(rt: &R, alloc: Global, home: &str) -> io::Result<()> {
    fs::create_dir(rt, format!(in alloc; "{home}/.moved")?.as_str())
}

fn is_folder<R: Files>(rt: &R, path: &str) -> io::Result<bool> {
    Ok(fs::symlink_metadata(rt, path)?.is_dir())
}

// Moves what is at a path out of the way. A folder gets the rights that this and its removal take.
fn move_aside<R: Files>(
    rt: &R,
    alloc: Global,
    home: &str,
    path: &str,
    moved: &mut u64,
) -> io::Result<()> {
    if is_folder(rt, path)? {
        let _ = fs::set_permissions(rt, path, Permissions::from_mode(0o700));
    }
    let left = left_path(alloc, home, *moved)?;
    *moved = (*moved).saturating_add(1);
    fs::rename(rt, path, left.as_str())
}

// Removes what is at a path, or moves it out of the way where it is a folder.
fn take_out<R: Files>(
    rt: &R,
    alloc: Global,
    home: &str,
    path: &str,
    moved: &mut u64,
) -> io::Result<()> {
    if is_folder(rt, path)? {
        move_aside(rt, alloc, home, path, moved)
    } else {
        fs::remove_file(rt, path)
    }
}

// Takes everything out of a folder that has a text as its name.
fn empty<R: Files + Alloc + Clone + Drop>(
    rt: &R,
    alloc: Global,
    home: &str,
    path: &str,
    moved: &mut u64,
) -> io::Result<()> {
    for entry in fs::read_dir(rt, path)? {
        if let Ok(entry) = entry {
            let _ = take_out(rt, alloc, home, entry.path().as_str(), moved);
        }
    }
    Ok(())
}

// Removes a folder or anything else. What has no text as its name is left to `remove_dir_all`, which is slow where it is deep.
fn remove<R: Files + Alloc + Clone + Drop>(
    rt: &R,
    alloc: Global,
    home: &str,
    path: &str,
    moved: &mut u64,
) -> io::Result<()> {
    if !is_folder(rt, path)? {
        return fs::remove_file(rt, path);
    }
    for _ in 0..PASSES {
        if fs::remove_dir(rt, path).is_ok() {
            return Ok(());
        }
        empty(rt, alloc, home, path, moved)?;
    }
    rt.remove_dir_all(alloc, path)
}

// Removes what was moved, from a number on, and what is moved by this.
fn clear<R: Files + Alloc + Clone + Drop>(
    rt: &R,
    alloc: Global,
    home: &str,
    first: u64,
    moved: &mut u64,
) {
    for number in first..u64::MAX {
        if number >= *moved {
            return;
        }
        if let Ok(path) = left_path(alloc, home, number) {
            let _ = remove(rt, alloc, home, path.as_str(), moved);
        }
    }
}

/// Removes what is at a path right in the folder of a session.
pub fn discard<R: Files + Alloc + Clone + Drop>(
    rt: &R,
    alloc: Global,
    path: &str,
    moved: &mut u64,
) {
    if let Some((home, _)) = path.rsplit_once('/') {
        let first = *moved;
        let _ = move_aside(rt, alloc, home, path, moved);
        clear(rt, alloc, home, first, moved);
    }
}

// Moves what is at a path away, where no session lives there. Its lock is held meanwhile, so that none begins to.
fn move_ended<R: Files<File = File>>(
    rt: &R,
    alloc: Global,
    home: &str,
    path: &str,
    moved: &mut u64,
) -> io::Result<()> {
    if !is_folder(rt, path)? {
        return move_aside(rt, alloc, home, path, moved);
    }
    // what can't be opened has no session
    let opened = fs::open(rt, path);
    if let Ok(folder) = &opened {
        if is_alive(folder) {
            return Ok(());
        }
    }
    move_aside(rt, alloc, home, path, moved)
}

// Moves everything in a folder into the folder of the session, but that and the folders of others that live.
fn move_others<R: Files<File = File> + Alloc + Clone + Drop>(
    rt: &R,
    alloc: Global,
    work: &str,
    home: &str,
    moved: &mut u64,
) -> io::Result<()> {
    for entry in fs::read_dir(rt, work)? {
        if let Ok(entry) = entry {
            let path = entry.path();
            if path.as_str() != home {
                let _ = move_ended(rt, alloc, home, path.as_str(), moved);
            }
        }
    }
    Ok(())
}

/// Removes everything in the folder of sessions but the folder of this one and of others that live.
pub fn clear_others<R: Files<File = File> + Alloc + Clone + Drop>(
    rt: &R,
    alloc: Global,
    work: &str,
    home: &str,
    moved: &mut u64,
) {
    let first = *moved;
    let _ = move_others(rt, alloc, work, home, moved);
    clear(rt, alloc, home, first, moved);
}

/// Removes the folder of a session.
pub fn remove_home<R: Files + Alloc + Clone + Drop>(
    rt: &R,
    alloc: Global,
    home: &str,
    moved: &mut u64,
) {
    let first = *moved;
    let _ = empty(rt, alloc, home, home, moved);
    clear(rt, alloc, home, first, moved);
    let _ = rt.remove_dir_all(alloc, home);
}
