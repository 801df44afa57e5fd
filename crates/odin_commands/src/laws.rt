//! What the texts of replies tell. Each law is the contract of a function that does nothing.
ghost use Rattle.meaning_commands.specs.Formed.{RepliesReadBack};

use odin_bytes::laws::escapes_read_back;

/// At a place stands the text of one well formed reply at most.
pub fn replies_read_back()
    ensures { RepliesReadBack }
{
    escapes_read_back();
}
