// The targets of a project that words ask for.
use crate::building::put;
use object_values::{Bytes, Memory, Seq};
use odin_bytes::cut_at;
use project_file::project::{Project, Target};
use project_folder::{NoTarget, targets_among};
use std::alloc::Global;
use std::test::Fail;

/// Targets, each by its name, what is asked for it, and its file, with a space between.
pub(crate) fn targets_of(alloc: Global, listed: &[&[u8]]) -> Result<Seq<Target>, Memory> {
    let mut targets = Seq::new(alloc);
    for text in listed {
        let (name, rest) = cut_at(b' ', text).ok_or(Memory)?;
        let (ask, file) = cut_at(b' ', rest).ok_or(Memory)?;
        targets.push(Target {
            name: Bytes::from_slice(alloc, name)?,
            ask: Bytes::from_slice(alloc, ask)?,
            file: Bytes::from_slice(alloc, file)?,
        })?;
    }
    Ok(targets)
}

const TARGETS: &[&[u8]] = &[b"debug m.list:exe out/debug", b"hello m.c:o hello"];

// Words, and the files of the targets, or the first word that names none.
const ROWS: &[(&[&str], &[u8])] = &[
    (&[], b"out/debug\nhello\n"),
    (&["hello"], b"hello\n"),
    (&["hello", "debug"], b"hello\nout/debug\n"),
    (&["debug", "debug"], b"out/debug\nout/debug\n"),
    (&["hell"], b"unknown hell"),
    (&["hello", "x", "y"], b"unknown x"),
    (&["out/debug"], b"unknown out/debug"),
    (&[""], b"unknown "),
];

fn told(alloc: Global, project: &Project, words: &[&str]) -> Result<Bytes, Memory> {
    let mut out = Bytes::new(alloc);
    match targets_among(alloc, project, words) {
        Ok(targets) => {
            for target in targets.as_slice() {
                put(&[target.file.as_slice(), b"\n"], &mut out)?;
            }
        }
        Err(NoTarget::Unknown(name)) => put(&[b"unknown ", name.as_slice()], &mut out)?,
        Err(NoTarget::Memory) => return Err(Memory),
    }
    Ok(out)
}

#[test]
fn words_tell_the_targets(rt: HostRuntime) -> Result<(), Fail> {
    let project = Project {
        graph: Bytes::new(rt.alloc()),
        sources: Seq::new(rt.alloc()),
        targets: targets_of(rt.alloc(), TARGETS)?,
    };
    for (words, wanted) in ROWS {
        let told = told(rt.alloc(), &project, words)?;
        assert!(rt; told.as_slice() == *wanted, "{words:?}");
    }
    Ok(())
}
