// Worked rows over graphs of texts.
use super::graphs::{JOINED_TEXTS, PACK, Pieces};
use super::runs::gives_by;
use std::test::Fail;

// A graph, an input, the output, and how many tools are started.
type Row = (Pieces, &'static [u8], &'static [u8], usize);

const ROWS: &[Row] = &[
    // a text that is joined of itself
    (
        JOINED_TEXTS,
        b"put a1.t 7\na1.t:u\nask a1.t:u\n",
        b"put a1.t 7\nrefused circular 2\na1.t:l:u\na1.t:l:u\n",
        0,
    ),
    // a compound with a list, of which an element has no source
    (
        PACK,
        b"put p.t 4\na.t\nask p.t:k\nask p.t:l%1\n",
        b"put p.t 4\nobject ok compound 2\nall 4\na.t\n\nsrc 4\na.t\n\nmessages 0\nobject abort none 0\nmessages 1\nabort a.t no source a.t\n",
        0,
    ),
];

#[test]
fn answers_the_worked_rows(rt: HostRuntime) -> Result<(), Fail> {
    for (graph, input, want, starts) in ROWS {
        assert!(rt; gives_by(rt.alloc(), graph, input, want, *starts)?);
    }
    Ok(())
}
