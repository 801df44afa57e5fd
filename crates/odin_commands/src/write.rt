// The replies, each by its variant.
ghost use Rattle.std.specs.Prelude.{◌≡◌, ◌++◌, IfOk, OnOk, OnErr};
ghost use Rattle.meaning_commands.specs.Replies.{reply_text};
ghost use Rattle.odin_commands.specs.Writing.{AppendsText};

use crate::lines::{write_counted, write_line, write_lines, write_named, write_named_count};
use crate::objects::write_object;
use object_values::{Bytes, Memory, Reply};
use std::alloc::Global;

// The room that most replies fit in.
const USUAL_ROOM: usize = 96;

// Leaves what it began at want of memory.
fn put_reply(reply: &Reply, out: &mut Bytes) -> Result<(), Memory>
    ensures { AppendsText result out.old out.new (reply_text reply.now) }
{
    match reply {
        Reply::Put(name, count) => write_named_count(b"put ", name.as_slice(), *count, out),
        Reply::Took(name, count) => write_named_count(b"took ", name.as_slice(), *count, out),
        Reply::NoFile(name) => write_named(b"no file ", name.as_slice(), out),
        Reply::Dropped(name) => write_named(b"dropped ", name.as_slice(), out),
        Reply::NoSource(name) => write_named(b"no source ", name.as_slice(), out),
        Reply::Sources(lines) => write_lines(b"sources", lines.as_slice(), out),
        Reply::Kept(count) => write_counted(b"kept", *count, out),
        Reply::Plan(lines) => write_lines(b"plan", lines.as_slice(), out),
        Reply::Bye => write_line(b"bye", out),
        Reply::RefusedCommand => write_line(b"refused command", out),
        Reply::RefusedName => write_line(b"refused name", out),
        Reply::RefusedSize => write_line(b"refused size", out),
        Reply::RefusedRead => write_line(b"refused read", out),
        Reply::RefusedExpression(place) => write_counted(b"refused expression", *place, out),
        Reply::RefusedParam(name) => write_named(b"refused param ", name.as_slice(), out),
        Reply::RefusedType(name) => write_named(b"refused type ", name.as_slice(), out),
        Reply::RefusedPath(step) => write_counted(b"refused path", *step, out),
        Reply::RefusedCircular(lines) => write_lines(b"refused circular", lines.as_slice(), out),
        Reply::RefusedDeep(lines) => write_lines(b"refused deep", lines.as_slice(), out),
        Reply::RefusedToolStart => write_line(b"refused tool start", out),
        Reply::Shown {
            status,
            body,
            messages,
        } => write_object(*status, body, messages.as_slice(), out),
    }
}

/// Adds the reply at the end. Where memory is wanted, what is there stays as it was.
pub fn write_reply(reply: &Reply, out: &mut Bytes) -> Result<(), Memory>
    ensures ok { OnOk result (out.new ≡ out.old ++ reply_text reply.now) }
    ensures err { OnErr result (out.new ≡ out.old) }
{
    out.reserve_exact(USUAL_ROOM)?;
    let before = out.len();
    let done = put_reply(reply, out);
    if done.is_err() {
        out.truncate(before);
    }
    done
}

/// The bytes of a reply.
pub fn text_of(alloc: Global, reply: Reply) -> Result<Bytes, Memory>
    ensures { IfOk result (λ bytes. bytes ≡ reply_text reply) }
{
    let mut bytes = Bytes::new(alloc);
    write_reply(&reply, &mut bytes)?;
    Ok(bytes)
}
