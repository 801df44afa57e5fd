// Files of projects by rows: what is read, and what is wrong where.
use object_values::Bytes;
use project_file::project::{Flaw, Problem};
use project_file::reading::{NoProject, read_project};
use std::alloc::Global;
use std::test::Fail;

const WHOLE: &[u8] = b"graph = \"build.graph\"\nsources = [\"src\", \"./tools/*.sh\"]\n\
[target.hello]\nask = \"src/main.list:exe\"\n[target.debug]\nask = \"main.list+debug:exe\"\nfile = \"out/debug\"\n";

#[test]
fn a_project_is_read(rt: HostRuntime) -> Result<(), Fail> {
    match read_project(rt.alloc(), WHOLE) {
        Ok(project) => {
            assert!(rt; project.graph.as_slice() == b"build.graph".as_slice());
            assert!(rt; project.sources.as_slice().len() == 2);
            let files = project
                .targets
                .as_slice()
                .iter()
                .map(|target| target.file.as_slice());
            assert!(rt; files.eq([b"out/debug".as_slice(), b"hello".as_slice()].into_iter()));
        }
        Err(_) => assert!(rt; false),
    }
    Ok(())
}

fn word_of(flaw: &Flaw) -> &'static str {
    match flaw {
        Flaw::Unknown => "unknown",
        Flaw::Missing => "missing",
        Flaw::NotTable => "table",
        Flaw::NotText => "text",
        Flaw::NotTexts => "texts",
        Flaw::TooMany => "many",
        Flaw::LeadsOut(_) => "leads out",
        Flaw::NoFile(_) => "no file",
    }
}

// The last key of a place.
fn key_of(problem: &Problem) -> &[u8] {
    match problem.place.as_slice().last() {
        Some(key) => key.as_slice(),
        None => b"",
    }
}

// Texts with the last key of the place, and what is wrong there.
const ROWS: &[(&[u8], &[u8], &str)] = &[
    (b"", b"graph", "missing"),
    (b"grap = 1", b"grap", "unknown"),
    (b"graph = 1", b"graph", "text"),
    (b"graph = \"\"", b"graph", "no file"),
    (b"graph = \"a/../b\"", b"graph", "no file"),
    (b"graph = \"/g\"", b"graph", "no file"),
    (b"graph = \"./.\"", b"graph", "no file"),
    (b"graph = \"g\"", b"sources", "missing"),
    (b"graph = \"g\"\nsources = \"src\"", b"sources", "texts"),
    (
        b"graph = \"g\"\nsources = [\"src\", 1]",
        b"sources",
        "texts",
    ),
    (
        b"graph = \"g\"\nsources = [\"..\"]",
        b"sources",
        "leads out",
    ),
    (b"graph = \"g\"\nsources = []", b"target", "missing"),
    (
        b"graph = \"g\"\nsources = []\ntarget = 1",
        b"target",
        "table",
    ),
    (b"graph = \"g\"\nsources = []\ntarget.a = 1", b"a", "table"),
    (
        b"graph = \"g\"\nsources = []\n[target.a]",
        b"ask",
        "missing",
    ),
    (
        b"graph = \"g\"\nsources = []\n[target.a]\nask = 1",
        b"ask",
        "text",
    ),
    (
        b"graph = \"g\"\nsources = []\n[target.a]\nask = \"\"\nfil = 1",
        b"fil",
        "unknown",
    ),
    (
        b"graph = \"g\"\nsources = []\n[target.a]\nask = \"\"\nfile = [1]",
        b"file",
        "text",
    ),
    (
        b"graph = \"g\"\nsources = []\n[target.\"a/..\"]\nask = \"\"",
        b"file",
        "no file",
    ),
];

fn problem_of(alloc: Global, text: &[u8]) -> Option<Problem> {
    match read_project(alloc, text) {
        Ok(_project) => None,
        Err(why) => match why {
            NoProject::Problem(problem) => Some(problem),
            _other => None,
        },
    }
}

fn is_told(problem: &Problem, key: &[u8], word: &str) -> bool {
    key_of(problem) == key && word_of(&problem.flaw) == word
}

#[test]
fn a_problem_has_its_place(rt: HostRuntime) -> Result<(), Fail> {
    for (text, key, word) in ROWS {
        let problem = problem_of(rt.alloc(), text).ok_or("another answer")?;
        let told = is_told(&problem, key, word);
        drop(problem);
        assert!(rt; told);
    }
    Ok(())
}

// What is no document: a cut text, a key that stands twice, and bytes that are no UTF-8.
const NO_DOCUMENTS: &[&[u8]] = &[
    b"graph = \"g",
    b"a = 1\na = 1",
    b"\xff",
    b"[target",
    b"a = [1,",
];

#[test]
fn other_texts_are_no_documents(rt: HostRuntime) -> Result<(), Fail> {
    for text in NO_DOCUMENTS {
        assert!(rt;
            matches!(
                read_project(rt.alloc(), text),
                Err(NoProject::NoDocument(_))
            )
        );
    }
    let mut long = Bytes::new(rt.alloc());
    for _ in 0..=1_048_576 {
        long.push(b'#')?;
    }
    assert!(rt;
        matches!(
            read_project(rt.alloc(), long.as_slice()),
            Err(NoProject::TooLong)
        )
    );
    Ok(())
}
