// The first line of a text.
use odin_bytes::first_line;

// A text, its first line and what stands after it.
const ROWS: &[(&[u8], &[u8], &[u8])] = &[
    (b"\n", b"", b""),
    (b"a\r\nb\nc", b"a\r", b"b\nc"),
    (b"\n\na", b"", b"\na"),
];

// Texts without a whole line.
const OTHERS: &[&[u8]] = &[b"", b"a\r"];

#[test]
fn a_text_is_cut_at_its_first_lf(rt: HostRuntime) {
    for (text, line, behind) in ROWS {
        assert!(rt; first_line(text) == Some((*line, *behind)));
    }
    for text in OTHERS {
        assert!(rt; first_line(text).is_none());
    }
}
