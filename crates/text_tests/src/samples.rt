// Graphs that are read to their declarations and written back.
use super::wanted::{Options, Text, Wanted, is_wanted};
use dg_reader::{read_graph, write_graph};
use object_values::{Bytes, Decl, Memory};
use std::alloc::Global;
use std::test::Fail;
use type_graph::Graph;

// Lines of graph files, each with its declaration.
type Rows = &'static [(Text, Wanted)];

const NOTHING: Rows = &[];

const CC_ONLY: Rows = &[
    (b"type c simple;", Wanted::Simple(b"c", &[])),
    (b"type o simple;", Wanted::Simple(b"o", &[])),
    (b"suffix .c c;", Wanted::Suffix(b".c", b"c")),
    (
        b"tool cc 1 from c to o run \"cc\";",
        Wanted::Tool(b"cc", b"c", b"o", b"cc"),
    ),
];

const C_UNITS: Rows = &[
    (b"type hdr simple;", Wanted::Simple(b"hdr", &[])),
    (b"type c simple is hdr;", Wanted::Simple(b"c", &[b"hdr"])),
    (b"type sm simple;", Wanted::Simple(b"sm", &[])),
    (b"type inc simple;", Wanted::Simple(b"inc", &[])),
    (b"type o simple;", Wanted::Simple(b"o", &[])),
    (b"type exe simple;", Wanted::Simple(b"exe", &[])),
    (b"type units list of c;", Wanted::List(b"units", b"c")),
    (b"type objs list of o;", Wanted::List(b"objs", b"o")),
    (b"suffix .h hdr;", Wanted::Suffix(b".h", b"hdr")),
    (b"suffix .c c;", Wanted::Suffix(b".c", b"c")),
    (b"suffix .sm sm;", Wanted::Suffix(b".sm", b"sm")),
    (b"param debug;", Wanted::Param(b"debug")),
    (
        b"tool scan 1 from hdr to inc run \"scan\";",
        Wanted::Tool(b"scan", b"hdr", b"inc", b"scan"),
    ),
    (
        b"tool cc 1 from c to o run \"cc\" uses debug closure inc;",
        Wanted::WithOptions(
            b"cc",
            b"c",
            b"o",
            Options {
                word: b"cc",
                uses: &[b"debug"],
                also: None,
                with: None,
                closure: Some(b"inc"),
            },
        ),
    ),
    (
        b"read rd from sm to units;",
        Wanted::Read(b"rd", b"sm", b"units"),
    ),
    (
        b"each comp from units to objs;",
        Wanted::Each(b"comp", b"units", b"objs"),
    ),
    (
        b"tool ld 1 from objs to exe run \"ld\";",
        Wanted::Tool(b"ld", b"objs", b"exe", b"ld"),
    ),
];

const BACK: Rows = &[(
    b"tool back 1 from exe to c run \"ld\";",
    Wanted::Tool(b"back", b"exe", b"c", b"ld"),
)];

const KITS: Rows = &[
    (
        b"type kit compound (prog exe, src sm);",
        Wanted::Compound(b"kit", &[(b"prog", b"exe"), (b"src", b"sm")]),
    ),
    (b"type txt simple;", Wanted::Simple(b"txt", &[])),
    (
        b"pack pk from sm to kit;",
        Wanted::Pack(b"pk", b"sm", b"kit"),
    ),
    (
        b"tool doc 1 from c to txt run \"ld\" also o with \"lic.h\";",
        Wanted::WithOptions(
            b"doc",
            b"c",
            b"txt",
            Options {
                word: b"ld",
                uses: &[],
                also: Some(b"o"),
                with: Some(b"lic.h"),
                closure: None,
            },
        ),
    ),
];

const JOINED_TEXTS: Rows = &[
    (b"type t simple;", Wanted::Simple(b"t", &[])),
    (b"type u simple is t;", Wanted::Simple(b"u", &[b"t"])),
    (b"type l list of t;", Wanted::List(b"l", b"t")),
    (b"suffix .t t;", Wanted::Suffix(b".t", b"t")),
    (b"read rd from t to l;", Wanted::Read(b"rd", b"t", b"l")),
    (
        b"tool join 1 from l to u run \"ld\";",
        Wanted::Tool(b"join", b"l", b"u", b"ld"),
    ),
];

const TWO_WAYS: Rows = &[
    (b"type a simple;", Wanted::Simple(b"a", &[])),
    (b"type b simple;", Wanted::Simple(b"b", &[])),
    (b"type c simple;", Wanted::Simple(b"c", &[])),
    (b"type d simple;", Wanted::Simple(b"d", &[])),
    (b"suffix .a a;", Wanted::Suffix(b".a", b"a")),
    (
        b"tool p 1 from a to b run \"ld\";",
        Wanted::Tool(b"p", b"a", b"b", b"ld"),
    ),
    (
        b"tool q 1 from a to c run \"ld\";",
        Wanted::Tool(b"q", b"a", b"c", b"ld"),
    ),
    (
        b"tool r 1 from c to d run \"ld\";",
        Wanted::Tool(b"r", b"c", b"d", b"ld"),
    ),
    (
        b"tool s 1 from b to d run \"ld\";",
        Wanted::Tool(b"s", b"b", b"d", b"ld"),
    ),
];

fn put_lines(text: &mut Bytes, rows: Rows) -> Result<(), Memory> {
    for (line, _) in rows {
        text.extend_from_slice(line)?;
        text.push(b'\n')?;
    }
    Ok(())
}

fn are_wanted(found: &[Decl], rows: Rows) -> bool {
    found.len() == rows.len()
        && found
            .iter()
            .zip(rows)
            .all(|(decl, (_, wanted))| is_wanted(decl, *wanted))
}

// Whether a graph's declarations are those of the rows.
fn holds(graph: &Graph, rows: Rows, more: Rows) -> bool {
    let found = graph.decls();
    let count = rows.len().min(found.len());
    are_wanted(&found[..count], rows) && are_wanted(&found[count..], more)
}

// What is written of a graph whose declarations are those of the rows.
fn written_of(
    alloc: Global,
    graph: &Graph,
    rows: Rows,
    more: Rows,
) -> Result<Option<Bytes>, Memory> {
    if !holds(graph, rows, more) {
        return Ok(None);
    }
    Ok(Some(write_graph(alloc, graph)?))
}

// The same of the graph of a text.
fn written(alloc: Global, text: &[u8], rows: Rows, more: Rows) -> Result<Option<Bytes>, Memory> {
    match read_graph(alloc, text) {
        Ok(graph) => written_of(alloc, &graph, rows, more),
        Err(_) => Ok(None),
    }
}

// Whether the lines are read to their declarations, and these written to the lines again.
fn goes_round(alloc: Global, rows: Rows, more: Rows) -> Result<bool, Memory> {
    let mut text = Bytes::new(alloc);
    put_lines(&mut text, rows)?;
    put_lines(&mut text, more)?;
    let again = written(alloc, text.as_slice(), rows, more)?;
    Ok(again.is_some_and(|again| again.as_slice() == text.as_slice()))
}

#[test]
fn samples_are_read_to_their_declarations_and_written_back(rt: HostRuntime) -> Result<(), Fail> {
    for (rows, more) in [
        (CC_ONLY, NOTHING),
        (C_UNITS, NOTHING),
        (C_UNITS, BACK),
        (JOINED_TEXTS, NOTHING),
        (TWO_WAYS, NOTHING),
        (C_UNITS, KITS),
    ] {
        assert!(rt; goes_round(rt.alloc(), rows, more)?);
    }
    Ok(())
}

// A text, and how its graph is written.
const SPELLINGS: &[(Text, Text)] = &[
    (b"", b""),
    (b" \t\r\n# nothing", b""),
    (b"#c;\n\ttype\rc#\nsimple;#x", b"type c simple;\n"),
    (
        b"type a simple;type b compound(p a,q a);",
        b"type a simple;\ntype b compound (p a, q a);\n",
    ),
    (
        b"type type simple;type is simple is type;suffix suffix is;param param;tool tool tool from type to is run\"tool\"\"\"\"#;\"uses param also is with\"with\"closure type;",
        b"type type simple;\ntype is simple is type;\nsuffix suffix is;\nparam param;\ntool tool tool from type to is run \"tool\" \"\" \"#;\" uses param also is with \"with\" closure type;\n",
    ),
];

// How the graph of a text is written.
fn canonical(alloc: Global, text: &[u8]) -> Result<Bytes, Memory> {
    match read_graph(alloc, text) {
        Ok(graph) => write_graph(alloc, &graph),
        Err(_) => Err(Memory),
    }
}

#[test]
fn spellings_are_made_canonical(rt: HostRuntime) -> Result<(), Fail> {
    for (text, wanted) in SPELLINGS {
        let found = canonical(rt.alloc(), text)?;
        assert!(rt; found.as_slice() == *wanted);
    }
    Ok(())
}
