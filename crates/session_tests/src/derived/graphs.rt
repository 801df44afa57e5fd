// The graphs of the tests, each in one piece or more.
use test_support::{C_UNITS as UNITS_TEXT, KITS as KITS_TEXT};

/// A graph's text, in pieces.
pub(super) type Pieces = &'static [&'static [u8]];

/// Sources with headers, scanned, compiled and linked.
pub(super) const C_UNITS: Pieces = &[UNITS_TEXT];

/// With these the graph has a declaration of every kind.
pub(super) const KITS: Pieces = &[UNITS_TEXT, KITS_TEXT];

/// Texts that are joined of others.
pub(super) const JOINED_TEXTS: Pieces = &[
    b"type t simple;\ntype u simple is t;\ntype l list of t;\nsuffix .t t;\nread rd from t to l;\ntool join 1 from l to u run \"ld\";\n",
];

/// A pack of a text with itself, beside the list of it.
pub(super) const PACK: Pieces = &[
    b"type t simple;\ntype l list of t;\ntype k compound (all t, src t);\nsuffix .t t;\nread rd from t to l;\npack pk from t to k;\n",
];

/// A compiler that uses one of three parameters.
pub(super) const PARAMS: Pieces = &[
    b"type c simple;\ntype o simple;\nsuffix .c c;\nparam debug;\nparam debug2;\nparam opt;\ntool cc 1 from c to o run \"cc\" uses debug;\n",
];
