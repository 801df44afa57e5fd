// Graphs by their declarations.
pub(super) type Text = &'static [u8];

// The declarations of a graph.
pub(super) type Decls = &'static [Text];

pub(super) const C_UNITS: Decls = &[
    b"type hdr simple;",
    b"type c simple is hdr;",
    b"type sm simple;",
    b"type inc simple;",
    b"type o simple;",
    b"type exe simple;",
    b"type units list of c;",
    b"type objs list of o;",
    b"suffix .h hdr;",
    b"suffix .c c;",
    b"suffix .sm sm;",
    b"param debug;",
    b"tool scan 1 from hdr to inc run \"scan\";",
    b"tool cc 1 from c to o run \"cc\" uses debug closure inc;",
    b"read rd from sm to units;",
    b"each comp from units to objs;",
    b"tool ld 1 from objs to exe run \"ld\";",
];

// These come after the graph of units.
pub(super) const KITS: Decls = &[
    b"type kit compound (prog exe, src sm);",
    b"type txt simple;",
    b"pack pk from sm to kit;",
    b"tool doc 1 from c to txt run \"ld\" also o with \"lic.h\";",
];

pub(super) const JOINED_TEXTS: Decls = &[
    b"type t simple;",
    b"type u simple is t;",
    b"type l list of t;",
    b"suffix .t t;",
    b"read rd from t to l;",
    b"tool join 1 from l to u run \"ld\";",
];

// A pack of a source with itself.
pub(super) const PACK: Decls = &[
    b"type t simple;",
    b"type l list of t;",
    b"type k compound (all t, src t);",
    b"suffix .t t;",
    b"read rd from t to l;",
    b"pack pk from t to k;",
];
