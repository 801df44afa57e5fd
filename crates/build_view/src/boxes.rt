//! The objects of a build as boxes in columns by type, with lines from each to those that are made from it.
ghost use Rattle.std.specs.Prelude.{◌≡◌, ◌++◌, ◌<◌, ◌^◌, flat_map, OnOk};
ghost use Rattle.build_view.specs.Boxes as meaning;

use crate::escaped::write_words;
use crate::levels::level_word;
use object_values::{Bytes, Memory, Seq, Status};
use odin_bytes::write_number;
use std::alloc::Global;

/// Where a box stands: its column and its row, each from 0.
#[derive(Clone, Copy, PartialEq, Eq, Drop)]
pub struct Spot {
    pub column: u32,
    pub row: u32,
}

/// The name of the type of a column's objects.
#[derive(Drop)]
pub struct PageColumn {
    pub name: Bytes,
    pub column: u32,
}

/// A line from an object to one that is made from it.
#[derive(Clone, Copy, Drop)]
pub struct PageEdge {
    pub from: Spot,
    pub to: Spot,
}

/// An object: its number, its label, what its own tool said where one made it, where it stands, and the numbers of all objects that it is made from, at once
/// or by others. Those have boxes before it.
#[derive(Drop)]
pub struct PageBox {
    pub number: u32,
    pub label: Bytes,
    pub status: Option<Status>,
    pub spot: Spot,
    pub uses: Seq<u32>,
}

/// The objects of a build, and whether these are all.
#[derive(Drop)]
pub struct Drawing {
    pub columns: Seq<PageColumn>,
    pub edges: Seq<PageEdge>,
    pub boxes: Seq<PageBox>,
    pub is_whole: bool,
}

// ---- boxes

/// The word of what an object's own tool said.
fn made_word(status: Option<Status>) -> &'static [u8]
    ensures { result.now ≡ meaning.made_word status }
{
    match status {
        Some(status) => level_word(status),
        None => b"source",
    }
}

/// Adds the class by which an object lights what is made from it.
fn write_use(number: u32, out: &mut Bytes) -> Result<(), Memory>
    ensures { OnOk result (out.new ≡ out.old ++ meaning.use_class number) }
{
    out.extend_from_slice(b" u")?;
    write_number(u64::from(number), out)
}

fn write_uses(uses: &[u32], out: &mut Bytes) -> Result<(), Memory>
    ensures { OnOk result (out.new ≡ out.old ++ flat_map meaning.use_class uses.now) }
{
    for number in uses {
        write_use(*number, out)?;
    }
    Ok(())
}

/// Adds what begins an object, with its number and its classes.
fn write_box_front(object: &PageBox, out: &mut Bytes) -> Result<(), Memory>
    ensures { OnOk result (out.new ≡ out.old ++ meaning.box_front object.now) }
{
    out.extend_from_slice(b"<g id=\"o")?;
    write_number(u64::from(object.number), out)?;
    out.extend_from_slice(b"\" class=\"")?;
    out.extend_from_slice(made_word(object.status))?;
    write_uses(object.uses.as_slice(), out)?;
    out.extend_from_slice(b"\"><a href=\"#o")?;
    write_number(u64::from(object.number), out)?;
    out.extend_from_slice(b"\">")
}

/// Adds the title of an object.
fn write_box_title(alloc: Global, object: &PageBox, out: &mut Bytes) -> Result<(), Memory>
    ensures { OnOk result (out.new ≡ out.old ++ meaning.box_title object.now) }
{
    out.extend_from_slice(b"<title>")?;
    write_words(alloc, object.label.as_slice(), out)?;
    out.extend_from_slice(b": ")?;
    out.extend_from_slice(made_word(object.status))?;
    out.extend_from_slice(b"</title>")
}

/// Adds the frame of a box, where it stands.
fn write_frame(spot: Spot, out: &mut Bytes) -> Result<(), Memory>
    ensures { OnOk result (out.new ≡ out.old ++ meaning.box_frame spot) }
{
    out.extend_from_slice(b"<svg x=\"")?;
    write_number(180 * u64::from(spot.column), out)?;
    out.extend_from_slice(b"\" y=\"")?;
    write_number(24 * u64::from(spot.row) + 24, out)?;
    out.extend_from_slice(
        b"\" width=\"150\" height=\"18\"><rect width=\"150\" height=\"18\"/><text x=\"3\" y=\"12\">",
    )
}

fn write_box(alloc: Global, object: &PageBox, out: &mut Bytes) -> Result<(), Memory>
    ensures { OnOk result (out.new ≡ out.old ++ meaning.box_of object.now) }
{
    write_box_front(object, out)?;
    write_box_title(alloc, object, out)?;
    write_frame(object.spot, out)?;
    write_words(alloc, object.label.as_slice(), out)?;
    out.extend_from_slice(b"</text></svg></a></g>\n")
}

fn write_boxes(alloc: Global, boxes: &[PageBox], out: &mut Bytes) -> Result<(), Memory>
    ensures { OnOk result (out.new ≡ out.old ++ flat_map meaning.box_of boxes.now) }
{
    for object in boxes {
        write_box(alloc, object, out)?;
    }
    Ok(())
}

/// Adds the rule by which an object lights all that is made from it.
fn write_light(object: &PageBox, out: &mut Bytes) -> Result<(), Memory>
    ensures { OnOk result (out.new ≡ out.old ++ meaning.light object.now) }
{
    out.extend_from_slice(b"#o")?;
    write_number(u64::from(object.number), out)?;
    out.extend_from_slice(b":target ~ .u")?;
    write_number(u64::from(object.number), out)?;
    out.extend_from_slice(b" rect { fill: #fe6 }\n")
}

fn write_lights(boxes: &[PageBox], out: &mut Bytes) -> Result<(), Memory>
    ensures { OnOk result (out.new ≡ out.old ++ flat_map meaning.light boxes.now) }
{
    for object in boxes {
        write_light(object, out)?;
    }
    Ok(())
}

// ---- lines, and the names of types

fn write_edge(edge: &PageEdge, out: &mut Bytes) -> Result<(), Memory>
    ensures { OnOk result (out.new ≡ out.old ++ meaning.edge_of edge.now) }
{
    out.extend_from_slice(b"<line x1=\"")?;
    write_number(180 * u64::from(edge.from.column) + 150, out)?;
    out.extend_from_slice(b"\" y1=\"")?;
    write_number(24 * u64::from(edge.from.row) + 24 + 9, out)?;
    out.extend_from_slice(b"\" x2=\"")?;
    write_number(180 * u64::from(edge.to.column), out)?;
    out.extend_from_slice(b"\" y2=\"")?;
    write_number(24 * u64::from(edge.to.row) + 24 + 9, out)?;
    out.extend_from_slice(b"\"/>\n")
}

fn write_edges(edges: &[PageEdge], out: &mut Bytes) -> Result<(), Memory>
    ensures { OnOk result (out.new ≡ out.old ++ flat_map meaning.edge_of edges.now) }
{
    for edge in edges {
        write_edge(edge, out)?;
    }
    Ok(())
}

fn write_column(alloc: Global, column: &PageColumn, out: &mut Bytes) -> Result<(), Memory>
    ensures { OnOk result (out.new ≡ out.old ++ meaning.column_name column.now) }
{
    out.extend_from_slice(b"<text x=\"")?;
    write_number(180 * u64::from(column.column), out)?;
    out.extend_from_slice(b"\" y=\"14\">")?;
    write_words(alloc, column.name.as_slice(), out)?;
    out.extend_from_slice(b"</text>\n")
}

fn write_columns(alloc: Global, columns: &[PageColumn], out: &mut Bytes) -> Result<(), Memory>
    ensures { OnOk result (out.new ≡ out.old ++ flat_map meaning.column_name columns.now) }
{
    for column in columns {
        write_column(alloc, column, out)?;
    }
    Ok(())
}

// ---- the whole

/// How many columns have boxes.
fn column_count(boxes: &[PageBox]) -> u64
    ensures count { result ≡ meaning.column_count boxes.now }
    ensures small { result < 2 ^ 33 }
{
    let mut count: u64 = 0;
    for object in boxes {
        count = count.max(u64::from(object.spot.column) + 1);
    }
    count
}

/// How many rows have boxes.
fn row_count(boxes: &[PageBox]) -> u64
    ensures count { result ≡ meaning.row_count boxes.now }
    ensures small { result < 2 ^ 33 }
{
    let mut count: u64 = 0;
    for object in boxes {
        count = count.max(u64::from(object.spot.row) + 1);
    }
    count
}

fn write_drawing_front(boxes: &[PageBox], out: &mut Bytes) -> Result<(), Memory>
    ensures { OnOk result (out.new ≡ out.old ++ meaning.drawing_front boxes.now) }
{
    out.extend_from_slice(b"<svg width=\"")?;
    write_number(180 * column_count(boxes), out)?;
    out.extend_from_slice(b"\" height=\"")?;
    write_number(24 * row_count(boxes) + 24, out)?;
    out.extend_from_slice(b"\">\n")
}

/// What is told where there are objects without a box.
fn rest_words(is_whole: bool) -> &'static [u8]
    ensures { result.now ≡ meaning.rest_words is_whole }
{
    if is_whole {
        b""
    } else {
        b"<p>More objects aren't shown.</p>\n"
    }
}

/// Adds the drawing of the objects, under its heading.
pub(crate) fn write_drawing(alloc: Global, drawing: &Drawing, out: &mut Bytes) -> Result<(), Memory>
    ensures { OnOk result (out.new ≡ out.old ++ meaning.drawing_of drawing.now) }
{
    out.extend_from_slice(b"<h2>Objects</h2>\n")?;
    write_drawing_front(drawing.boxes.as_slice(), out)?;
    out.extend_from_slice(b"<style>\n")?;
    write_lights(drawing.boxes.as_slice(), out)?;
    out.extend_from_slice(b"</style>\n")?;
    write_columns(alloc, drawing.columns.as_slice(), out)?;
    write_edges(drawing.edges.as_slice(), out)?;
    write_boxes(alloc, drawing.boxes.as_slice(), out)?;
    out.extend_from_slice(b"</svg>\n")?;
    out.extend_from_slice(rest_words(drawing.is_whole))
}
