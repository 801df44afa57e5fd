// Pages of builds: their bytes, by rows that were written by hand, and the order of their messages.
use build_view::boxes::{Drawing, PageBox, PageColumn, PageEdge, Spot};
use build_view::escaped::write_words;
use build_view::pages::{MessageRow, Page, PageTarget, page_of};
use build_view::places::page_messages;
use build_view::runs::Run;
use object_values::{Bytes, Memory, Message, Seq, Status, Text};
use std::alloc::Global;
use std::test::Fail;

// ---- texts

// A text, and what a page has of it, by the module html of Python.
const WORDS: &[(&[u8], &[u8])] = &[
    (b"", b""),
    (b"src/a.c", b"src/a.c"),
    (b"<script>", b"&lt;script&gt;"),
    (b"\"a\" & 'b'", b"&quot;a&quot; &amp; &#39;b&#39;"),
    (b"&lt;", b"&amp;lt;"),
    (b"gr\xc3\xbcn", b"gr\xc3\xbcn"),
    (b"\x1b[2J<", b"\\x1b[2J&lt;"),
    (b"\xc3<", b"\\xc3&lt;"),
    (b"a\tb\n", b"a\\tb\\x0a"),
];

#[test]
fn texts_are_escaped(rt: HostRuntime) -> Result<(), Fail> {
    for (text, wanted) in WORDS {
        let mut out = Bytes::new(rt.alloc());
        write_words(rt.alloc(), text, &mut out)?;
        assert!(rt; out.as_slice() == *wanted);
    }
    Ok(())
}

// ---- messages

fn message(alloc: Global, level: Status, text: &[u8]) -> Result<Message, Memory> {
    Ok(Message {
        label: Text::of(Bytes::new(alloc))?,
        level,
        text: Text::of(Bytes::from_slice(alloc, text)?)?,
    })
}

// Two places of one file, one that comes twice, others of a file before it, and texts with no place.
const TEXTS: &[&[u8]] = &[
    b"no place",
    b"./b.c:10:2: ten",
    b"b.c:9:30: nine",
    b"b.c:10:2: ten",
    b"a.c:7:1: 'x' <y>",
    b"a.c:7:1: another",
    b"b.c: In function 'f':",
    b"b.c:07:1: no number",
    b"b.c:9:4:",
    b"no place",
];

// The rows in their order: the place, and the text.
const ROWS: &[(&[u8], &[u8])] = &[
    (b"a.c:7:1", b"&#39;x&#39; &lt;y&gt;"),
    (b"a.c:7:1", b"another"),
    (b"b.c:9:4", b""),
    (b"b.c:9:30", b"nine"),
    (b"b.c:10:2", b"ten"),
    (b"", b"no place"),
    (b"", b"b.c: In function &#39;f&#39;:"),
    (b"", b"b.c:07:1: no number"),
];

fn put(pieces: &[&[u8]], out: &mut Bytes) -> Result<(), Memory> {
    for piece in pieces {
        out.extend_from_slice(piece)?;
    }
    Ok(())
}

fn wanted_rows(alloc: Global) -> Result<Bytes, Memory> {
    let mut out = Bytes::new(alloc);
    for (place, text) in ROWS {
        put(
            &[
                b"<tr><td class=\"error\">error</td><td>",
                place,
                b"</td><td>",
                text,
                b"</td><td><code>if (a &lt; b)</code></td></tr>\n",
            ],
            &mut out,
        )?;
    }
    out.extend_from_slice(b"</table>\n</body>\n</html>\n")?;
    Ok(out)
}

fn messages(alloc: Global) -> Result<Seq<Message>, Memory> {
    let mut found = Seq::new(alloc);
    for text in TEXTS {
        found.push(message(alloc, Status::Error, text)?)?;
    }
    Ok(found)
}

fn rows(alloc: Global) -> Result<Seq<MessageRow>, Memory> {
    let mut rows = Seq::new(alloc);
    for message in page_messages(alloc, messages(alloc)?.as_slice())?.into_vec() {
        let line = Bytes::from_slice(alloc, b"if (a < b)")?;
        rows.push(MessageRow { message, line })?;
    }
    Ok(rows)
}

fn page_with(
    alloc: Global,
    targets: Seq<PageTarget>,
    objects: Drawing,
    runs: Seq<Run>,
) -> Result<Page, Memory> {
    Ok(Page {
        targets,
        objects,
        runs,
        messages: rows(alloc)?,
        started: 2,
        took: 12_345,
    })
}

fn nothing(alloc: Global) -> Drawing {
    Drawing {
        columns: Seq::new(alloc),
        edges: Seq::new(alloc),
        boxes: Seq::new(alloc),
        is_whole: true,
    }
}

#[test]
fn messages_stand_by_their_places(rt: HostRuntime) -> Result<(), Fail> {
    let alloc = rt.alloc();
    let page = page_with(alloc, Seq::new(alloc), nothing(alloc), Seq::new(alloc))?;
    let text = page_of(alloc, &page)?;
    assert!(rt; text.as_slice().ends_with(wanted_rows(alloc)?.as_slice()));
    Ok(())
}

// ---- the rest

fn target(alloc: Global, name: &[u8], status: Option<Status>) -> Result<PageTarget, Memory> {
    Ok(PageTarget {
        name: Bytes::from_slice(alloc, name)?,
        file: Bytes::from_slice(alloc, b"out/<a>")?,
        status,
        messages: 3,
    })
}

fn run(alloc: Global, slot: u32, label: &[u8], from: u64, to: u64) -> Result<Run, Memory> {
    Ok(Run {
        slot,
        label: Bytes::from_slice(alloc, label)?,
        from,
        to,
    })
}

fn object(
    alloc: Global,
    number: u32,
    label: &[u8],
    status: Option<Status>,
    spot: Spot,
) -> Result<PageBox, Memory> {
    let mut uses = Seq::new(alloc);
    for used in 0..number {
        uses.push(used)?;
    }
    Ok(PageBox {
        number,
        label: Bytes::from_slice(alloc, label)?,
        status,
        spot,
        uses,
    })
}

// A source, what is made from it, and what is made from that, of which the last two are of one type.
fn three(alloc: Global) -> Result<Drawing, Memory> {
    let mut drawing = nothing(alloc);
    for (name, column) in [(b"c".as_slice(), 0), (b"<o>".as_slice(), 1)] {
        let name = Bytes::from_slice(alloc, name)?;
        drawing.columns.push(PageColumn { name, column })?;
    }
    let source = Spot { column: 0, row: 0 };
    let first = Spot { column: 1, row: 0 };
    let second = Spot { column: 1, row: 1 };
    drawing.edges.push(PageEdge {
        from: source,
        to: first,
    })?;
    drawing.edges.push(PageEdge {
        from: first,
        to: second,
    })?;
    drawing.boxes.push(object(alloc, 0, b"a&b", None, source)?)?;
    drawing
        .boxes
        .push(object(alloc, 1, b"a&b:o", Some(Status::Ok), first)?)?;
    drawing
        .boxes
        .push(object(alloc, 2, b"b:o", Some(Status::Abort), second)?)?;
    drawing.is_whole = false;
    Ok(drawing)
}

// From the heading of the page to that of the messages. A step is 13 microseconds.
const MIDDLE: &[u8] =
    b"<body>\n<h1>odin-build</h1>\n<p>Tools started: 2. Time: 12 ms.</p>\n<h2>Targets</h2>\n\
<table>\n<tr><th>target</th><th>status</th><th>file</th><th>messages</th></tr>\n\
<tr><td>&lt;b&gt;</td><td class=\"warning\">warning</td><td>out/&lt;a&gt;</td><td>3</td></tr>\n\
<tr><td>none</td><td class=\"unbuilt\">unbuilt</td><td>out/&lt;a&gt;</td><td>3</td></tr>\n\
</table>\n<h2>Objects</h2>\n<svg width=\"360\" height=\"72\">\n<style>\n\
#o0:target ~ .u0 rect { fill: #fe6 }\n#o1:target ~ .u1 rect { fill: #fe6 }\n\
#o2:target ~ .u2 rect { fill: #fe6 }\n</style>\n\
<text x=\"0\" y=\"14\">c</text>\n<text x=\"180\" y=\"14\">&lt;o&gt;</text>\n\
<line x1=\"150\" y1=\"33\" x2=\"180\" y2=\"33\"/>\n\
<line x1=\"330\" y1=\"33\" x2=\"180\" y2=\"57\"/>\n\
<g id=\"o0\" class=\"source\"><a href=\"#o0\"><title>a&amp;b: source</title>\
<svg x=\"0\" y=\"24\" width=\"150\" height=\"18\"><rect width=\"150\" height=\"18\"/>\
<text x=\"3\" y=\"12\">a&amp;b</text></svg></a></g>\n\
<g id=\"o1\" class=\"ok u0\"><a href=\"#o1\"><title>a&amp;b:o: ok</title>\
<svg x=\"180\" y=\"24\" width=\"150\" height=\"18\"><rect width=\"150\" height=\"18\"/>\
<text x=\"3\" y=\"12\">a&amp;b:o</text></svg></a></g>\n\
<g id=\"o2\" class=\"abort u0 u1\"><a href=\"#o2\"><title>b:o: abort</title>\
<svg x=\"180\" y=\"48\" width=\"150\" height=\"18\"><rect width=\"150\" height=\"18\"/>\
<text x=\"3\" y=\"12\">b:o</text></svg></a></g>\n\
</svg>\n<p>More objects aren't shown.</p>\n<h2>Tools</h2>\n<svg viewBox=\"0 0 1000 48\">\n\
<svg x=\"0\" y=\"0\" width=\"1\" height=\"15\"><title>cc &quot;a&quot;: 0 ms, after 0 ms</title>\
<rect width=\"1000\" height=\"15\"/><text x=\"3\" y=\"11\">cc &quot;a&quot;</text></svg>\n\
<svg x=\"269\" y=\"32\" width=\"423\" height=\"15\"><title>ld: 5 ms, after 3 ms</title>\
<rect width=\"1000\" height=\"15\"/><text x=\"3\" y=\"11\">ld</text></svg>\n\
</svg>\n<h2>Messages</h2>\n";

#[test]
fn a_page_has_targets_objects_and_bars(rt: HostRuntime) -> Result<(), Fail> {
    let alloc = rt.alloc();
    let mut targets = Seq::new(alloc);
    targets.push(target(alloc, b"<b>", Some(Status::Warning))?)?;
    targets.push(target(alloc, b"none", None)?)?;
    let mut runs = Seq::new(alloc);
    runs.push(run(alloc, 0, b"cc \"a\"", 5, 17)?)?;
    runs.push(run(alloc, 2, b"ld", 3_500, 9_000)?)?;
    let page = page_with(alloc, targets, three(alloc)?, runs)?;
    let text = page_of(alloc, &page)?;
    let found = text
        .as_slice()
        .windows(MIDDLE.len())
        .any(|part| *part == *MIDDLE);
    assert!(rt; found);
    Ok(())
}
