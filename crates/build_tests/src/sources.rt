// The sources among files that were found, by patterns and by the file that a target writes.
use crate::building::put;
use crate::targets::targets_of;
use object_values::{Bytes, Memory};
use project_file::project::Project;
use project_folder::{NoSources, list_sources};
use project_kits::plain::lines_of;
use std::alloc::Global;
use std::test::Fail;

const FOUND: &[u8] =
    b"odin.toml\nsrc/b.c\nsrc/a.c\nsrc/x/d.c\nsrc/a.h\nmain.c\n.git/a.c\nsrc/.odin/a.c\nout/prog\nout/prog.c\nout/prog/a.c\nn/a b.c\n";

// Patterns, one a line, and the sources where a target writes `./out//prog`, or why there is no list of them.
const ROWS: &[(&[u8], &[u8])] = &[
    (b"src/*.c", b"src/a.c\nsrc/b.c\n"),
    (b"src/**/*.c", b"src/a.c\nsrc/b.c\nsrc/x/d.c\n"),
    (b"src/**", b"src/a.c\nsrc/a.h\nsrc/b.c\nsrc/x/d.c\n"),
    (b"*", b"main.c\n"),
    (b"src/b.c\nsrc/*.c\n./src//b.c", b"src/a.c\nsrc/b.c\n"),
    (b"lib/*.c", b""),
    (b"", b""),
    // what a target writes, and what lies in a folder there
    (b"out/**", b"out/prog.c\n"),
    (b"out/prog", b"missing out/prog"),
    // the build's own files, and those of a history
    (b"odin.*\n**/.git/*\n**/.odin/*", b""),
    (b"odin.toml", b"missing odin.toml"),
    (b".git/a.c", b"missing .git/a.c"),
    // what is named and isn't there, or is a folder
    (b"src/*.c\nsrc/z.c", b"missing src/z.c"),
    (b"src", b"missing src"),
    (b"n/*\nz", b"no name n/a b.c"),
];

fn told(alloc: Global, patterns: &[u8]) -> Result<Bytes, Memory> {
    let project = Project {
        graph: Bytes::new(alloc),
        sources: lines_of(alloc, patterns)?,
        targets: targets_of(alloc, &[b"prog main.c:exe ./out//prog"])?,
    };
    let found = lines_of(alloc, FOUND)?;
    let mut out = Bytes::new(alloc);
    match list_sources(alloc, &project, found.as_slice()) {
        Ok(names) => {
            for name in names.as_slice() {
                put(&[name.as_slice(), b"\n"], &mut out)?;
            }
        }
        Err(NoSources::Missing(path)) => put(&[b"missing ", path.as_slice()], &mut out)?,
        Err(NoSources::NoName(path)) => put(&[b"no name ", path.as_slice()], &mut out)?,
        Err(NoSources::Memory) => return Err(Memory),
    }
    Ok(out)
}

#[test]
fn patterns_tell_the_sources(rt: HostRuntime) -> Result<(), Fail> {
    for (place, (patterns, wanted)) in ROWS.iter().enumerate() {
        let told = told(rt.alloc(), patterns)?;
        assert!(rt; told.as_slice() == *wanted, "row {place}");
    }
    Ok(())
}
