// A reply by its text.
use object_values::{Bytes, Memory, Message, Seq, SharedSeq, Status, Text};
use odin_commands::{Reply, ShownBody, write_reply};
use std::alloc::Global;
use std::test::Fail;

// A message with a tab in it.
fn messages(alloc: Global) -> Result<SharedSeq<Message>, Memory> {
    let label = Text::of(Bytes::from_slice(alloc, b"a.c:o")?)?;
    let text = Text::of(Bytes::from_slice(alloc, b"a\tb")?)?;
    let mut messages = Seq::new(alloc);
    messages.push(Message {
        label,
        level: Status::Warning,
        text,
    })?;
    SharedSeq::of(messages)
}

// An empty object with messages.
fn warned(alloc: Global) -> Result<Reply, Memory> {
    Ok(Reply::Shown {
        status: Status::Warning,
        body: ShownBody::Simple(Text::of(Bytes::new(alloc))?),
        messages: messages(alloc)?,
    })
}

// What is written of it.
fn written(alloc: Global) -> Result<Bytes, Memory> {
    let reply = warned(alloc)?;
    let mut out = Bytes::new(alloc);
    let done = write_reply(&reply, &mut out);
    drop(reply);
    done?;
    Ok(out)
}

// What is shown then.
const WARNED: &[u8] = b"object warning simple 0\n\nmessages 1\nwarning a.c:o a\\x09b\n";

#[test]
fn an_object_is_written(rt: HostRuntime) -> Result<(), Fail> {
    let text = written(rt.alloc())?;
    assert!(rt; text.as_slice() == WARNED);
    Ok(())
}
