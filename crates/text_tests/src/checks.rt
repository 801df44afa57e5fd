// Which fault of the declarations is the first, and what the names and the numbers of a checked graph mean.
use super::units::{UNITS, fault_in};
use dg_reader::{ReadFault, read_graph};
use object_values::GraphFault::{
    DoubleName, SupertypeLoop, TooMany, UnknownParam, UnknownType, WrongKind,
};
use object_values::{Bytes, GraphFault, Memory};
use odin_bytes::write_number;
use std::alloc::Global;
use std::test::Fail;
use type_graph::Graph;

// A graph file, the line where its first declaration with a fault begins, and that fault.
type Row = (&'static [u8], u32, GraphFault);

const FAULTS: &[Row] = &[
    (b"suffix .c c;", 1, UnknownType),
    (b"param a;\ntype a simple;\nparam a;", 3, DoubleName),
    (b"type text simple;", 1, DoubleName),
    (b"type k compound (p text, p text);", 1, DoubleName),
    (
        b"param p;\ntool t 1 from text to text run \"x\" uses p, p;",
        2,
        DoubleName,
    ),
    (b"type a simple is a;", 1, SupertypeLoop),
    (
        b"type c simple is a;\ntype a simple is b;\ntype b simple is text, a;",
        2,
        SupertypeLoop,
    ),
    (
        b"type a simple is b;\ntype b simple is zz, a;",
        1,
        SupertypeLoop,
    ),
    (b"type b simple is b, z;", 1, UnknownType),
    (b"type text list of c is text;", 1, UnknownType),
    (
        b"tool t 1 from text to text run \"x\" uses p;\ntype text simple;\nsuffix .c c;",
        1,
        UnknownParam,
    ),
    (
        b"type a simple;\ntype l list of text;\ntype m list of a is l;",
        3,
        WrongKind,
    ),
    (
        b"type l list of text is m;\ntype m list of zz;",
        2,
        UnknownType,
    ),
    (b"type l list of m;\ntype m list of l;", 1, WrongKind),
    (b"read r from text to text;", 1, WrongKind),
    (b"pack p from text to text;", 1, WrongKind),
    (b"suffix .c c;\nsuffix .c c;\ntype c simple;", 2, DoubleName),
    (b"type c\nsimple;\n# two\ntype\nc simple;", 4, DoubleName),
    (b"type c simple; type c simple;", 1, DoubleName),
    (b"type c simple;\n\nsuffix .c d;\n", 3, UnknownType),
    (b"\ntype text simple;", 2, DoubleName),
    (
        b"type a simple is b;\ntype b simple is a, z;",
        1,
        SupertypeLoop,
    ),
    (
        b"type a simple;\r\ntool t 1 from a to a run \"x\" uses p;",
        2,
        UnknownParam,
    ),
];

#[test]
fn the_first_fault_is_answered(rt: HostRuntime) {
    for (text, line, fault) in FAULTS {
        assert!(rt; fault_in(rt.alloc(), text) == Some(ReadFault::Check(*line, *fault)));
    }
}

// A list of texts, and a declaration whose kinds don't fit.
const WRONG: &[&[u8]] = &[
    b"type l list of text;\ntype m list of l;",
    b"type l list of text;\ntype a simple is l;",
    b"type l list of text;\ntype m list of text is text;",
    b"type l list of text;\nsuffix .l l;",
    b"type l list of text;\ntool t 1 from text to l run \"x\";",
    b"type l list of text;\nread r from l to l;",
    b"type l list of text;\neach e from text to l;",
    b"type l list of text;\neach e from l to text;",
];

#[test]
fn each_rule_of_kinds_is_kept(rt: HostRuntime) {
    for text in WRONG {
        assert!(rt; fault_in(rt.alloc(), text) == Some(ReadFault::Check(2, WrongKind)));
    }
}

const RIGHT: &[&[u8]] = &[
    b"suffix .c c;\ntype c simple;",
    b"type k compound (p text, q text);",
    b"type t simple;\nparam t;\nsuffix t t;\ntool t 1 from t to t run \"x\";",
    b"type a simple is b, c;\ntype b simple is c;\ntype c simple;",
    b"type a simple is text;\ntype l list of text;\ntype m list of a is l;",
];

#[test]
fn later_names_and_names_of_other_spaces_are_no_fault(rt: HostRuntime) {
    for text in RIGHT {
        assert!(rt; fault_in(rt.alloc(), text).is_none());
    }
}

// So many parameters, one a line.
fn put_params(text: &mut Bytes, count: u64) -> Result<(), Memory> {
    for number in 0..count {
        text.extend_from_slice(b"param p")?;
        write_number(number, text)?;
        text.extend_from_slice(b";\n")?;
    }
    Ok(())
}

// The fault of a file of so many declarations.
fn fault_of_params(alloc: Global, count: u64) -> Result<Option<ReadFault>, Memory> {
    let mut text = Bytes::new(alloc);
    put_params(&mut text, count)?;
    Ok(fault_in(alloc, text.as_slice()))
}

#[test]
fn no_more_than_2000_declarations_are_taken(rt: HostRuntime) -> Result<(), Fail> {
    assert!(rt; fault_of_params(rt.alloc(), 2000)?.is_none());
    for count in [2001, 2002] {
        let found = fault_of_params(rt.alloc(), count)?;
        assert!(rt; found == Some(ReadFault::Check(2001, TooMany)));
    }
    Ok(())
}

// Names, and the numbers of the types that they name.
const TYPES: [(&[u8], Option<u32>); 5] = [
    (b"text", Some(0)),
    (b"hdr", Some(1)),
    (b"kit", Some(9)),
    (b"zz", None),
    (b"", None),
];

// Names of sources, and the numbers of their types.
const SOURCES: [(&[u8], u32); 6] = [
    (b"a.c", 2),
    (b"a.h", 1),
    (b"x.c", 1),
    (b"ax.c", 1),
    (b"a.d", 0),
    (b"", 0),
];

fn has_names(graph: &Graph) -> bool {
    TYPES
        .iter()
        .all(|(name, number)| graph.type_named(name) == *number)
        && SOURCES
            .iter()
            .all(|(name, number)| graph.source_type(name) == *number)
        && graph.has_param(b"debug")
        && !graph.has_param(b"hdr")
}

fn has_numbers(graph: &Graph) -> bool {
    graph.decls().len() == 21
        && graph.type_count() == 10
        && graph.maker_count() == 7
        && graph.is_a(2, 1)
        && graph.is_a(2, 2)
        && !graph.is_a(1, 2)
        && graph
            .maker(6)
            .is_some_and(|maker| maker.name.as_slice() == b"pk".as_slice())
        && graph.maker(7).is_none()
}

fn has_meanings(graph: &Graph) -> bool {
    has_names(graph) && has_numbers(graph)
}

// Whether the graph of units is read, with names and numbers as they are wanted.
fn units_are_read(alloc: Global) -> bool {
    match read_graph(alloc, UNITS) {
        Ok(graph) => has_meanings(&graph),
        Err(_) => false,
    }
}

#[test]
fn names_and_numbers_have_their_meanings(rt: HostRuntime) {
    assert!(rt; units_are_read(rt.alloc()));
}
