//! Messages by the places that they begin with.
ghost use Rattle.std.specs.Prelude.{◌≡◌, IfOk, IfSome};
ghost use Rattle.std.specs.List.{AllZip};
ghost use Rattle.build_view.specs.Places as meaning;

use indexmap::IndexSet;
use object_values::{Bytes, Memory, Message, Seq, Status};
use odin_bytes::{cut_at, read_number};
use std::alloc::Global;
use std::cmp::Ordering;

/// A place in a file.
#[derive(PartialEq, Eq, PartialOrd, Ord, Hash, Drop)]
pub struct Place {
    pub path: Bytes,
    pub line: u64,
    pub column: u64,
}

/// A message of a page: its place, where its text begins with one, and the text after it.
#[derive(PartialEq, Eq, Hash, Drop)]
pub struct PageMessage {
    pub place: Option<Place>,
    pub level: Status,
    pub text: Bytes,
}

/// The number at the front, which a colon ends, and what comes after that.
fn cut_number(text: &[u8]) -> Option<(u64, &[u8])>
    ensures { IfSome result (λ cut. meaning.IsCutNumber text.now cut.0 cut.1.now) }
{
    let (digits, rest) = cut_at(b':', text)?;
    let number = read_number(digits)?;
    Some((number, rest))
}

/// The path, the line and the column at the front, each of which a colon ends, and what comes after them.
fn cut_place(text: &[u8]) -> Option<(&[u8], u64, u64, &[u8])>
    ensures { IfSome result (λ cut. meaning.IsCutPlace text.now cut.0.now cut.1 cut.2 cut.3.now) }
{
    let (path, rest) = cut_at(b':', text)?;
    let (line, rest) = cut_number(rest)?;
    let (column, rest) = cut_number(rest)?;
    Some((path, line, column, rest))
}

/// A message as the page has it. A path is told without a `./` before it, and a text without a space after its place.
fn page_message(alloc: Global, message: &Message) -> Result<PageMessage, Memory>
    ensures { IfOk result (meaning.IsPageMessage message.now) }
{
    let whole = message.text.as_slice();
    let level = message.level;
    let Some((path, line, column, rest)) = cut_place(whole) else {
        let text = Bytes::from_slice(alloc, whole)?;
        return Ok(PageMessage {
            place: None,
            level,
            text,
        });
    };
    let path = Bytes::from_slice(alloc, path.strip_prefix(b"./").unwrap_or(path))?;
    let text = Bytes::from_slice(alloc, rest.strip_prefix(b" ").unwrap_or(rest))?;
    let place = Some(Place { path, line, column });
    Ok(PageMessage { place, level, text })
}

/// By their places; those without one come last.
fn by_place(one: &PageMessage, other: &PageMessage) -> Ordering
    ensures { result ≡ meaning.page_cmp one.now other.now }
{
    match (&one.place, &other.place) {
        (Some(place), Some(next)) => place.cmp(next),
        (Some(_), None) => Ordering::Less,
        (None, Some(_)) => Ordering::Greater,
        (None, None) => Ordering::Equal,
    }
}

/// The messages as the page has them, in the order in which they come.
fn shown_messages(alloc: Global, messages: &[Message]) -> Result<Seq<PageMessage>, Memory>
    ensures { IfOk result (AllZip meaning.IsPageMessage messages.now) }
{
    let mut all = Seq::new(alloc);
    for message in messages {
        all.push(page_message(alloc, message)?)?;
    }
    Ok(all)
}

/// Each once, where it stands first: a set, since a build may have many messages.
fn first_messages(alloc: Global, all: Vec<PageMessage>) -> Result<Vec<PageMessage>, Memory>
    ensures { IfOk result (λ firsts. firsts.items ≡ meaning.first_messages all.items) }
{
    let found: IndexSet<PageMessage> = IndexSet::from_iter(alloc, all)?;
    Ok(Vec::from_iter(alloc, found)?)
}

/// The messages of a page, each once, in the order of their places. Those of one place, and those without one, stay in the order in which they come.
pub fn page_messages(alloc: Global, messages: &[Message]) -> Result<Seq<PageMessage>, Memory>
    ensures { IfOk result (meaning.ArePageMessages messages.now) }
{
    let all = shown_messages(alloc, messages)?;
    let mut ordered = first_messages(alloc, all.into_vec())?;
    ordered.sort_by(by_place)?;
    Ok(Seq::from_vec(ordered))
}
