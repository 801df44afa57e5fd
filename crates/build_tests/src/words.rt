// The words of a build, and what they ask for.
use crate::building::put;
use object_values::{Bytes, Memory};
use project_folder::words::{Asked, Colours, read_words};
use std::alloc::Global;
use std::test::Fail;
use test_support::owned;

const REFUSED: &[u8] = b"refused";

// A value that isn't one of its option.
const NO_VALUE: &[u8] = b"no value";

// Words after the program's name, and what they ask for.
const ROWS: &[(&[&str], &[u8])] = &[
    (&[], b""),
    (&["--"], b""),
    (&["hello", "debug"], b"target hello, target debug, "),
    (&["-C", "a b", "-j", "64"], b"in a b, jobs 64, "),
    (
        &["x", "-j1", "-C.", "y"],
        b"in ., jobs 1, target x, target y, ",
    ),
    (&["-n", "--", "-n", "-j"], b"tells, target -n, target -j, "),
    (&["-qv", "--trace=t"], b"quiet, verbose, trace t, "),
    (&["--page", "p", "--trace", "t"], b"trace t, page p, "),
    (&["--verbose", "--quiet"], b"quiet, verbose, "),
    (&["--why", "-q", "x"], b"quiet, why, target x, "),
    (&["--color", "never"], b"never, "),
    (&["--color=always"], b"always, "),
    (&["-j", "0"], NO_VALUE),
    (&["-j", "65"], NO_VALUE),
    (&["-j", "01"], NO_VALUE),
    (&["-j", ""], NO_VALUE),
    (&["-j", "18446744073709551617"], NO_VALUE),
    (&["--color", "Always"], NO_VALUE),
    (&["--color="], NO_VALUE),
    (&["-x"], REFUSED),
    (&["--jobs", "2"], REFUSED),
    (&["-j"], REFUSED),
    (&["--trace"], REFUSED),
    (&["--page=a", "--page=b"], REFUSED),
    (&["-j", "1", "-j", "1"], REFUSED),
    (&["--quiet=yes"], REFUSED),
    (&["--why=yes"], REFUSED),
    (&["-w"], REFUSED),
    (&["--help"], REFUSED),
    (&["-V"], REFUSED),
];

fn put_asked(alloc: Global, asked: &Asked<'_>, out: &mut Bytes) -> Result<(), Memory> {
    if let Some(folder) = asked.folder {
        put(&[b"in ", folder.as_bytes(), b", "], out)?;
    }
    if let Some(count) = asked.jobs {
        let count = format!(in alloc; "{count}").map_err(|_| Memory)?;
        put(&[b"jobs ", count.as_bytes(), b", "], out)?;
    }
    let view = &asked.view;
    let flags = [
        (asked.tells, b"tells, ".as_slice()),
        (view.quiet, b"quiet, "),
        (view.verbose, b"verbose, "),
        (view.why, b"why, "),
        (view.colours == Colours::Always, b"always, "),
        (view.colours == Colours::Never, b"never, "),
    ];
    for (stands, word) in flags {
        if stands {
            put(&[word], out)?;
        }
    }
    if let Some(file) = view.trace {
        put(&[b"trace ", file.as_bytes(), b", "], out)?;
    }
    if let Some(file) = view.page {
        put(&[b"page ", file.as_bytes(), b", "], out)?;
    }
    for target in asked.targets.as_slice() {
        put(&[b"target ", target.as_bytes(), b", "], out)?;
    }
    Ok(())
}

fn told(alloc: Global, words: &[&str]) -> Result<Bytes, Memory> {
    let mut all = owned(alloc, &["odin-build"])?;
    all.append(&mut owned(alloc, words)?)?;
    let mut out = Bytes::new(alloc);
    let answer = read_words(alloc, all.as_slice());
    match &answer {
        Ok(Some(asked)) => put_asked(alloc, asked, &mut out)?,
        Ok(None) => put(&[NO_VALUE], &mut out)?,
        Err(_) => put(&[REFUSED], &mut out)?,
    }
    Ok(out)
}

#[test]
fn words_ask_for_a_build(rt: HostRuntime) -> Result<(), Fail> {
    for (words, wanted) in ROWS {
        assert!(rt; told(rt.alloc(), words)?.as_slice() == *wanted, "{words:?}");
    }
    Ok(())
}
