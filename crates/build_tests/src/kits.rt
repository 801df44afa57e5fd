// Documents of projects with kits, and the projects that they tell, with the lists of units, or why they tell none.
use crate::building::put;
use object_values::{Bytes, FileBody, Memory};
use project_file::project::{Flaw, Problem, Refused};
use project_folder::{NoSources, tidy_outputs};
use project_kits::lists::{first_taken, list_files};
use project_kits::plain::{all_targets, lines_of, plain_project};
use project_kits::reading::{kits_of, read_wanted};
use project_kits::settings::{first_unknown, kit_name};
use project_kits::wanted::Wanted;
use std::alloc::Global;
use std::test::Fail;
use test_support::body_of;

// What was found in the folder.
const FOUND: &[u8] = b"src/b.c\nsrc/a.c\nmain.c\nhello\nodin.toml\nold.program.list\n";

// Documents after the line with the kits `c`, which has a file `flags`, and `pages`; and the sources, targets and units that they tell.
const ROWS: &[(&[u8], &[u8])] = &[
    (
        b"[program.hello]\nunits = [\"src/*.c\", \"./main.c\"]",
        b"src/*.c\n./main.c\nhello.program.list\nhello = hello.program.list:program\nmain.c\nsrc/a.c\nsrc/b.c\n",
    ),
    (
        b"sources = [\"d/*\"]\n[program.a]\nunits = \"main.c\"\n[program.b]\nunits = \"**/b.c\"\nfile = \"out/b\"\n[target.d]\nask = \"d.t:txt\"",
        b"d/*\nmain.c\n**/b.c\na.program.list\nb.program.list\na = a.program.list:program\nout/b = b.program.list:program\nd = d.t:txt\nmain.c\nsrc/b.c\n",
    ),
    // no file fits the pattern
    (b"t.a.units = \"z/*\"", b"z/*\na.t.list\na = a.t.list:t\n"),
    // what a target writes is no unit, and no file of the build itself is one
    (
        b"[t.hello]\nunits = \"*\"",
        b"*\nhello.t.list\nhello = hello.t.list:t\nmain.c\nold.program.list\n",
    ),
    (b"[t.a]\nunits = [\"main.c\", \"z.c\"]", b"missing z.c"),
    (b"[program.old]\nunits = []", b"taken old.program.list"),
    (b"c.flags = \"-O1\"", b""),
    (b"c.flag = \"-O1\"", b"no setting kits/c/flag"),
    (b"pages.flags = []", b"no setting kits/pages/flags"),
    (b"c = 1", b"no table at c"),
    (b"c.flags = 1", b"no texts at c.flags"),
    (b"graph = \"../g\"", b"no file at graph"),
    (b"sources = [\"/a\"]", b"leads out at sources"),
    (b"program = 1", b"no table at program"),
    // settings of a kit that isn't named
    (b"rust.flags = \"\"", b"no table at rust.flags"),
    (b"program.a = {}", b"missing at program.a.units"),
    (b"program.a.units = 1", b"no texts at program.a.units"),
    (b"program.a.unit = 1", b"unknown at program.a.unit"),
    (b"[t.a]\nunits = []\nfile = 1", b"no text at t.a.file"),
    (b"[t.\"../a\"]\nunits = []", b"no file at t.../a.file"),
];

// What a document says, after the names of the kits. A text that is no document is answered as want of memory is.
fn wanted_of(alloc: Global, rest: &[u8]) -> Result<Wanted, Refused> {
    let mut text = Bytes::new(alloc);
    put(&[b"kits = [\"c\", \"pages\"]\n", rest], &mut text)?;
    let Ok(keys) = toml::table_from_slice(alloc, text.as_slice()) else {
        return Err(Refused::Memory);
    };
    let kits = kits_of(alloc, keys.get("kits"))?;
    read_wanted(alloc, kits.as_slice(), &keys)
}

// What is told of lists that were made.
fn put_made(
    alloc: Global,
    wanted: &Wanted,
    lists: &[FileBody],
    found: &[Bytes],
    out: &mut Bytes,
) -> Result<(), Memory> {
    if let Some(list) = first_taken(lists, found) {
        return put(&[b"taken ", list.name.as_slice()], out);
    }
    let project = plain_project(alloc, wanted, &[], lists)?;
    for source in project.sources.as_slice() {
        put(&[source.as_slice(), b"\n"], out)?;
    }
    for target in project.targets.as_slice() {
        let (file, ask) = (target.file.as_slice(), target.ask.as_slice());
        put(&[file, b" = ", ask, b"\n"], out)?;
    }
    for list in lists {
        put(&[list.body.as_slice()], out)?;
    }
    Ok(())
}

fn put_wanted(alloc: Global, wanted: &Wanted, out: &mut Bytes) -> Result<(), Memory> {
    let name = kit_name(alloc, b"c", b"flags")?;
    let body = body_of(alloc, b"")?;
    let files = [FileBody { name, body }];
    if let Some(setting) = first_unknown(wanted.settings.as_slice(), &files) {
        return put(&[b"no setting ", setting.name.as_slice()], out);
    }
    let targets = all_targets(alloc, wanted)?;
    let outputs = tidy_outputs(alloc, targets.as_slice())?;
    let found = lines_of(alloc, FOUND)?;
    let (units, found) = (wanted.units.as_slice(), found.as_slice());
    match list_files(alloc, units, outputs.as_slice(), found) {
        Ok(lists) => put_made(alloc, wanted, lists.as_slice(), found, out),
        Err(NoSources::Missing(path)) => put(&[b"missing ", path.as_slice()], out),
        Err(_) => Err(Memory),
    }
}

fn flaw_words(flaw: &Flaw) -> &'static [u8] {
    match flaw {
        Flaw::Unknown => b"unknown",
        Flaw::Missing => b"missing",
        Flaw::NotTable => b"no table",
        Flaw::NotText => b"no text",
        Flaw::NotTexts => b"no texts",
        Flaw::LeadsOut(_) => b"leads out",
        Flaw::NoFile(_) => b"no file",
        Flaw::TooMany => b"too many",
    }
}

fn put_problem(problem: &Problem, out: &mut Bytes) -> Result<(), Memory> {
    put(&[flaw_words(&problem.flaw)], out)?;
    let mut between = b" at ".as_slice();
    for key in problem.place.as_slice() {
        put(&[between, key.as_slice()], out)?;
        between = b".";
    }
    Ok(())
}

fn told(alloc: Global, document: &[u8]) -> Result<Bytes, Memory> {
    let mut out = Bytes::new(alloc);
    match wanted_of(alloc, document) {
        Ok(wanted) => put_wanted(alloc, &wanted, &mut out)?,
        Err(Refused::Problem(problem)) => put_problem(&problem, &mut out)?,
        Err(Refused::Memory) => return Err(Memory),
    }
    Ok(out)
}

#[test]
fn documents_with_kits_tell_projects(rt: HostRuntime) -> Result<(), Fail> {
    for (place, (document, wanted)) in ROWS.iter().enumerate() {
        let told = told(rt.alloc(), document)?;
        assert!(rt; told.as_slice() == *wanted, "row {place}");
    }
    Ok(())
}
