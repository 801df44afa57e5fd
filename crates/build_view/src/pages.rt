//! The page of a build that has ended: what was asked for, when each tool ran, and the messages.
ghost use Rattle.std.specs.Prelude.{◌≡◌, ◌++◌, ◌<◌, ◌^◌, decimal, flat_map, IfOk, OnOk};
ghost use Rattle.build_view.specs.Escaped.{words};
ghost use Rattle.build_view.specs.Pages as meaning;

use crate::boxes::{Drawing, write_drawing};
use crate::escaped::write_words;
use crate::levels::level_word;
use crate::places::{PageMessage, Place};
use crate::runs::Run;
use object_values::{Bytes, Memory, Seq, Status};
use odin_bytes::write_number;
use std::alloc::Global;

/// A target: its name, its file, its status where it was built, and how many messages it has.
#[derive(Drop)]
pub struct PageTarget {
    pub name: Bytes,
    pub file: Bytes,
    pub status: Option<Status>,
    pub messages: u64,
}

/// A message with the line of the file that it begins with, and no text where that isn't known.
#[derive(Drop)]
pub struct MessageRow {
    pub message: PageMessage,
    pub line: Bytes,
}

/// What a page shows of a build: its targets, its objects, the runs of its tools, its messages, how many tools were started, and how many microseconds it took.
#[derive(Drop)]
pub struct Page {
    pub targets: Seq<PageTarget>,
    pub objects: Drawing,
    pub runs: Seq<Run>,
    pub messages: Seq<MessageRow>,
    pub started: u64,
    pub took: u64,
}

const STYLE: &[u8] = b"<style>\nbody { font: 14px sans-serif; margin: 2em }\n\
td, th { padding: 0 1em 0 0; text-align: left }\n\
svg text { font: 10px sans-serif }\nrect { fill: #9cf; stroke: #369 }\nline { stroke: #999 }\n\
.error, .abort { color: #b00 }\n.warning { color: #860 }\n\
.source rect { fill: #eee }\n.warning rect { fill: #fd8 }\n.error rect, .abort rect { fill: #f99 }\n\
g:target rect { fill: #fe6; stroke-width: 3 }\n</style>\n";

const HEAD: &[u8] = b"<!DOCTYPE html>\n<html lang=\"en\">\n<head>\n\
<meta charset=\"utf-8\">\n<title>odin-build</title>\n";

const TARGETS: &[u8] = b"<h2>Targets</h2>\n<table>\n\
<tr><th>target</th><th>status</th><th>file</th><th>messages</th></tr>\n";

const MESSAGES: &[u8] = b"<h2>Messages</h2>\n<table>\n\
<tr><th>level</th><th>place</th><th>text</th><th>line</th></tr>\n";

// ---- tables

/// Adds a cell of a table with a text.
fn write_cell(alloc: Global, text: &[u8], out: &mut Bytes) -> Result<(), Memory>
    ensures { OnOk result (out.new ≡ out.old ++ meaning.cell (words text.now)) }
{
    out.extend_from_slice(b"<td>")?;
    write_words(alloc, text, out)?;
    out.extend_from_slice(b"</td>")
}

/// Adds a cell of a table with a number.
fn write_count(count: u64, out: &mut Bytes) -> Result<(), Memory>
    ensures { OnOk result (out.new ≡ out.old ++ meaning.cell (decimal count)) }
{
    out.extend_from_slice(b"<td>")?;
    write_number(count, out)?;
    out.extend_from_slice(b"</td>")
}

/// Adds a cell of a table with a level, which has its colour by its class.
fn write_level(level: &[u8], out: &mut Bytes) -> Result<(), Memory>
    ensures { OnOk result (out.new ≡ out.old ++ meaning.level_cell level.now) }
{
    out.extend_from_slice(b"<td class=\"")?;
    out.extend_from_slice(level)?;
    out.extend_from_slice(b"\">")?;
    out.extend_from_slice(level)?;
    out.extend_from_slice(b"</td>")
}

/// The word of a target's status.
fn status_word(status: Option<Status>) -> &'static [u8]
    ensures { result.now ≡ meaning.status_words status }
{
    match status {
        Some(status) => level_word(status),
        None => b"unbuilt",
    }
}

fn write_target(alloc: Global, target: &PageTarget, out: &mut Bytes) -> Result<(), Memory>
    ensures { OnOk result (out.new ≡ out.old ++ meaning.target_row target.now) }
{
    out.extend_from_slice(b"<tr>")?;
    write_cell(alloc, target.name.as_slice(), out)?;
    write_level(status_word(target.status), out)?;
    write_cell(alloc, target.file.as_slice(), out)?;
    write_count(target.messages, out)?;
    out.extend_from_slice(b"</tr>\n")
}

/// Adds a place, where there is one.
fn write_place(alloc: Global, place: &Option<Place>, out: &mut Bytes) -> Result<(), Memory>
    ensures { OnOk result (out.new ≡ out.old ++ meaning.place_words place.now) }
{
    let Some(place) = place else {
        return Ok(());
    };
    write_words(alloc, place.path.as_slice(), out)?;
    out.push(b':')?;
    write_number(place.line, out)?;
    out.push(b':')?;
    write_number(place.column, out)
}

/// Adds a cell of a table with a place.
fn write_place_cell(alloc: Global, place: &Option<Place>, out: &mut Bytes) -> Result<(), Memory>
    ensures { OnOk result (out.new ≡ out.old ++ meaning.cell (meaning.place_words place.now)) }
{
    out.extend_from_slice(b"<td>")?;
    write_place(alloc, place, out)?;
    out.extend_from_slice(b"</td>")
}

/// Adds a cell of a table with a line of a file.
fn write_line(alloc: Global, line: &[u8], out: &mut Bytes) -> Result<(), Memory>
    ensures { OnOk result (out.new ≡ out.old ++ meaning.line_cell line.now) }
{
    out.extend_from_slice(b"<td><code>")?;
    write_words(alloc, line, out)?;
    out.extend_from_slice(b"</code></td>")
}

/// Adds the cells of a message.
fn write_message(alloc: Global, message: &PageMessage, out: &mut Bytes) -> Result<(), Memory>
    ensures { OnOk result (out.new ≡ out.old ++ meaning.message_cells message.now) }
{
    write_level(level_word(message.level), out)?;
    write_place_cell(alloc, &message.place, out)?;
    write_cell(alloc, message.text.as_slice(), out)
}

fn write_row(alloc: Global, row: &MessageRow, out: &mut Bytes) -> Result<(), Memory>
    ensures { OnOk result (out.new ≡ out.old ++ meaning.message_row row.now) }
{
    out.extend_from_slice(b"<tr>")?;
    write_message(alloc, &row.message, out)?;
    write_line(alloc, row.line.as_slice(), out)?;
    out.extend_from_slice(b"</tr>\n")
}

// ---- the timeline

/// How wide a bar is.
fn width_of(step: u64, length: u64) -> u64
    requires { 0 < step }
    ensures { result ≡ meaning.width_of step length }
{
    let width = length / step;
    if width == 0 { 1 } else { width }
}

/// Adds what begins a bar, with where it stands.
fn write_box(step: u64, run: &Run, out: &mut Bytes) -> Result<(), Memory>
    requires { 0 < step }
    ensures { OnOk result (out.new ≡ out.old ++ meaning.bar_box step run.now) }
{
    out.extend_from_slice(b"<svg x=\"")?;
    write_number(run.from / step, out)?;
    out.extend_from_slice(b"\" y=\"")?;
    write_number(16 * u64::from(run.slot), out)?;
    out.extend_from_slice(b"\" width=\"")?;
    write_number(width_of(step, run.to.saturating_sub(run.from)), out)?;
    out.extend_from_slice(b"\" height=\"15\">")
}

/// Adds the title of a bar.
fn write_title(alloc: Global, run: &Run, out: &mut Bytes) -> Result<(), Memory>
    ensures { OnOk result (out.new ≡ out.old ++ meaning.bar_title run.now) }
{
    out.extend_from_slice(b"<title>")?;
    write_words(alloc, run.label.as_slice(), out)?;
    out.extend_from_slice(b": ")?;
    write_number(run.to.saturating_sub(run.from) / 1000, out)?;
    out.extend_from_slice(b" ms, after ")?;
    write_number(run.from / 1000, out)?;
    out.extend_from_slice(b" ms</title>")
}

/// Adds the bar of a run.
fn write_bar(alloc: Global, step: u64, run: &Run, out: &mut Bytes) -> Result<(), Memory>
    requires { 0 < step }
    ensures { OnOk result (out.new ≡ out.old ++ meaning.bar step run.now) }
{
    write_box(step, run, out)?;
    write_title(alloc, run, out)?;
    out.extend_from_slice(b"<rect width=\"1000\" height=\"15\"/><text x=\"3\" y=\"11\">")?;
    write_words(alloc, run.label.as_slice(), out)?;
    out.extend_from_slice(b"</text></svg>\n")
}

fn write_bars(alloc: Global, step: u64, runs: &[Run], out: &mut Bytes) -> Result<(), Memory>
    requires { 0 < step }
    ensures { OnOk result (out.new ≡ out.old ++ flat_map (meaning.bar step) runs.now) }
{
    for run in runs {
        write_bar(alloc, step, run, out)?;
    }
    Ok(())
}

/// How many slots have bars.
fn slot_count(runs: &[Run]) -> u64
    ensures count { result ≡ meaning.slot_count runs.now }
    ensures small { result < 2 ^ 33 }
{
    let mut count: u64 = 0;
    for run in runs {
        count = count.max(u64::from(run.slot) + 1);
    }
    count
}

fn write_timeline(alloc: Global, took: u64, runs: &[Run], out: &mut Bytes) -> Result<(), Memory>
    ensures { OnOk result (out.new ≡ out.old ++ meaning.timeline took runs.now) }
{
    out.extend_from_slice(b"<svg viewBox=\"0 0 1000 ")?;
    write_number(16 * slot_count(runs), out)?;
    out.extend_from_slice(b"\">\n")?;
    write_bars(alloc, took / 1000 + 1, runs, out)?;
    out.extend_from_slice(b"</svg>\n")
}

// ---- the whole

fn write_front(out: &mut Bytes) -> Result<(), Memory>
    ensures { OnOk result (out.new ≡ out.old ++ meaning.front) }
{
    out.extend_from_slice(HEAD)?;
    out.extend_from_slice(STYLE)?;
    out.extend_from_slice(b"</head>\n<body>\n<h1>odin-build</h1>\n")
}

fn write_summary(started: u64, took: u64, out: &mut Bytes) -> Result<(), Memory>
    ensures { OnOk result (out.new ≡ out.old ++ meaning.summary started took) }
{
    out.extend_from_slice(b"<p>Tools started: ")?;
    write_number(started, out)?;
    out.extend_from_slice(b". Time: ")?;
    write_number(took / 1000, out)?;
    out.extend_from_slice(b" ms.</p>\n")
}

fn write_targets(alloc: Global, targets: &[PageTarget], out: &mut Bytes) -> Result<(), Memory>
    ensures { OnOk result (out.new ≡ out.old ++ flat_map meaning.target_row targets.now) }
{
    for target in targets {
        write_target(alloc, target, out)?;
    }
    Ok(())
}

fn write_target_table(alloc: Global, targets: &[PageTarget], out: &mut Bytes) -> Result<(), Memory>
    ensures { OnOk result (out.new ≡ out.old ++ meaning.target_table targets.now) }
{
    out.extend_from_slice(TARGETS)?;
    write_targets(alloc, targets, out)?;
    out.extend_from_slice(b"</table>\n")
}

fn write_rows(alloc: Global, rows: &[MessageRow], out: &mut Bytes) -> Result<(), Memory>
    ensures { OnOk result (out.new ≡ out.old ++ flat_map meaning.message_row rows.now) }
{
    for row in rows {
        write_row(alloc, row, out)?;
    }
    Ok(())
}

fn write_message_table(alloc: Global, rows: &[MessageRow], out: &mut Bytes) -> Result<(), Memory>
    ensures { OnOk result (out.new ≡ out.old ++ meaning.message_table rows.now) }
{
    out.extend_from_slice(MESSAGES)?;
    write_rows(alloc, rows, out)?;
    out.extend_from_slice(b"</table>\n")
}

/// The page of a build.
pub fn page_of(alloc: Global, page: &Page) -> Result<Bytes, Memory>
    ensures { IfOk result (λ text. text ≡ meaning.page_of page.now) }
{
    let mut text = Bytes::new(alloc);
    write_front(&mut text)?;
    write_summary(page.started, page.took, &mut text)?;
    write_target_table(alloc, page.targets.as_slice(), &mut text)?;
    write_drawing(alloc, &page.objects, &mut text)?;
    text.extend_from_slice(b"<h2>Tools</h2>\n")?;
    write_timeline(alloc, page.took, page.runs.as_slice(), &mut text)?;
    write_message_table(alloc, page.messages.as_slice(), &mut text)?;
    text.extend_from_slice(b"</body>\n</html>\n")?;
    Ok(text)
}
