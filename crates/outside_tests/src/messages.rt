// Messages that are inherited, on small tables.
use super::texts::Text;
use object_values::{Bytes, Memory, Message, Seq, SharedSeq, Status, Text as SharedText, View};
use odin_nodes::{inherit, worst};
use std::alloc::Global;
use std::test::Fail;

// Labels, levels and texts of messages.
type Rows = &'static [(Text, Status, Text)];

// A message with this label, level and text.
fn message(alloc: Global, label: &[u8], level: Status, text: &[u8]) -> Result<Message, Memory> {
    Ok(Message {
        label: SharedText::of(Bytes::from_slice(alloc, label)?)?,
        level,
        text: SharedText::of(Bytes::from_slice(alloc, text)?)?,
    })
}

// Adds the messages of the rows at the end of a list.
fn put_messages(alloc: Global, list: &mut Seq<Message>, rows: Rows) -> Result<(), Memory> {
    for (label, level, text) in rows {
        list.push(message(alloc, label, *level, text)?)?;
    }
    Ok(())
}

// An object with the messages of the rows.
fn view(alloc: Global, rows: Rows) -> Result<View, Memory> {
    let mut messages = Seq::new(alloc);
    put_messages(alloc, &mut messages, rows)?;
    Ok(View {
        value: None,
        status: Status::Abort,
        messages: SharedSeq::of(messages)?,
    })
}

// Adds objects with the messages of the rows to a list.
fn put_views(alloc: Global, views: &mut Seq<View>, needs: &[Rows]) -> Result<(), Memory> {
    for rows in needs {
        views.push(view(alloc, rows)?)?;
    }
    Ok(())
}

// What an object with these own messages shows that needs the views.
fn with_own(alloc: Global, views: &[View], own: Rows) -> Result<SharedSeq<Message>, Memory> {
    let mut messages = Seq::new(alloc);
    put_messages(alloc, &mut messages, own)?;
    inherit(alloc, views, messages.as_slice())
}

// What an object with these own messages shows that needs objects with these messages.
fn inherited(alloc: Global, needs: &[Rows], own: Rows) -> Result<SharedSeq<Message>, Memory> {
    let mut views = Seq::new(alloc);
    put_views(alloc, &mut views, needs)?;
    with_own(alloc, views.as_slice(), own)
}

// Whether a message has this label, level and text.
fn is_wanted(message: &Message, wanted: (Text, Status, Text)) -> bool {
    let (label, level, text) = wanted;
    message.label.as_slice() == label && message.level == level && message.text.as_slice() == text
}

// Whether a list holds the messages of the rows, in this order.
fn are_wanted(found: &[Message], wanted: Rows) -> bool {
    found.len() == wanted.len()
        && found
            .iter()
            .zip(wanted)
            .all(|(message, row)| is_wanted(message, *row))
}

// The messages of each needed object, the own ones, and all that are shown.
const INHERITED: &[(&[Rows], Rows, Rows)] = &[
    // each message where it stands first
    (
        &[
            &[
                (b"a:o", Status::Warning, b"a"),
                (b"a:o", Status::Warning, b"b"),
                (b"a:o", Status::Warning, b"a"),
            ],
            &[
                (b"a:o", Status::Warning, b"c"),
                (b"a:o", Status::Warning, b"b"),
            ],
        ],
        &[
            (b"a:o", Status::Warning, b"d"),
            (b"a:o", Status::Warning, b"a"),
            (b"a:o", Status::Warning, b"e"),
            (b"a:o", Status::Warning, b"d"),
        ],
        &[
            (b"a:o", Status::Warning, b"a"),
            (b"a:o", Status::Warning, b"b"),
            (b"a:o", Status::Warning, b"c"),
            (b"a:o", Status::Warning, b"d"),
            (b"a:o", Status::Warning, b"e"),
        ],
    ),
    // told apart by label and by level
    (
        &[],
        &[
            (b"a:o", Status::Warning, b"a"),
            (b"a:o", Status::Error, b"a"),
            (b"b:o", Status::Warning, b"a"),
        ],
        &[
            (b"a:o", Status::Warning, b"a"),
            (b"a:o", Status::Error, b"a"),
            (b"b:o", Status::Warning, b"a"),
        ],
    ),
];

// Whether an object with these own messages shows the wanted ones where it needs objects with these messages.
fn shows(alloc: Global, needs: &[Rows], own: Rows, wanted: Rows) -> Result<bool, Memory> {
    let all = inherited(alloc, needs, own)?;
    Ok(are_wanted(all.as_slice(), wanted))
}

#[test]
fn keeps_each_message_where_it_stands_first(rt: HostRuntime) -> Result<(), Fail> {
    for (needs, own, wanted) in INHERITED {
        assert!(rt; shows(rt.alloc(), needs, own, wanted)?);
    }
    Ok(())
}

// Adds 1,025 messages with different texts.
fn put_many(alloc: Global, list: &mut Seq<Message>) -> Result<(), Memory> {
    for high in 0..41u8 {
        for low in 0..25u8 {
            list.push(message(alloc, b"", Status::Abort, &[high, low])?)?;
        }
    }
    Ok(())
}

// Whether an object with these own messages shows the first thousand of them.
fn shows_a_thousand(alloc: Global, own: &[Message]) -> Result<bool, Memory> {
    let all = inherit(alloc, &[], own)?;
    Ok(all.len() == 1_000 && all.as_slice().iter().eq(own.iter().take(1_000)))
}

// Whether an object with 1,025 own messages shows the first thousand.
fn shows_a_thousand_of_many(alloc: Global) -> Result<bool, Memory> {
    let mut own = Seq::new(alloc);
    put_many(alloc, &mut own)?;
    shows_a_thousand(alloc, own.as_slice())
}

#[test]
fn takes_the_first_thousand(rt: HostRuntime) -> Result<(), Fail> {
    assert!(rt; shows_a_thousand_of_many(rt.alloc())?);
    Ok(())
}

#[test]
fn orders_statuses(rt: HostRuntime) -> Result<(), Fail> {
    let order = [Status::Ok, Status::Warning, Status::Error, Status::Abort];
    for (at, a) in order.iter().enumerate() {
        for (other, b) in order.iter().enumerate() {
            assert!(rt; worst(*a, *b) == order[at.max(other)]);
        }
    }
    Ok(())
}
