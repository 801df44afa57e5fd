// The reply at a place, and the replies of a text.
ghost use Rattle.std.specs.Prelude.{IfOk};
ghost use Rattle.meaning_commands.specs.Replies.{reply_text};
ghost use Rattle.meaning_commands.specs.Formed.{IsFormed};
ghost use Rattle.odin_commands.specs.Reading.{ReadsFront, ParsesReplyAt, AreReplies};

use crate::laws::replies_read_back;
use crate::said::read_said;
use crate::verbs::cut_verb;
use object_values::{Memory, Reply, Seq};
use std::alloc::Global;

// The reply that a text begins with, and what stands after it.
fn read_first(alloc: Global, text: &[u8]) -> Result<Option<(Reply, &[u8])>, Memory>
    ensures { IfOk result (ReadsFront reply_text IsFormed text.now) }
{
    match cut_verb(text) {
        Some((verb, said)) => read_said(alloc, verb, said),
        None => Ok(None),
    }
}

/// The well formed reply whose text begins at a place, and the place after it. There is at most one.
pub fn read_reply(alloc: Global, text: &[u8], at: usize) -> Result<Option<(Reply, usize)>, Memory>
    ensures { IfOk result (ParsesReplyAt text.now at) }
{
    let Some(rest) = text.get(at..) else {
        return Ok(None);
    };
    match read_first(alloc, rest)? {
        Some((reply, behind)) => Ok(Some((reply, text.len() - behind.len()))),
        None => Ok(None),
    }
}

/// The well formed replies whose texts are the whole text, one after another. There is one such list at most.
pub fn read_replies(alloc: Global, text: &[u8]) -> Result<Option<Seq<Reply>>, Memory>
    ensures { IfOk result (AreReplies text.now) }
{
    replies_read_back();
    let mut replies = Seq::new(alloc);
    let mut rest = text;
    'replies: while !rest.is_empty() {
        let Some((reply, behind)) = read_first(alloc, rest)? else {
            return Ok(None);
        };
        replies.push(reply)?;
        rest = behind;
    }
    Ok(Some(replies))
}
