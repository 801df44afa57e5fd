// What is noted of an ask.
ghost use Rattle.std.specs.Prelude.{◌≡◌};
ghost use Rattle.load_session.specs.Served.{shown_length};

use odin_answers::{Reply, ShownBody};

/// What is noted of an ask.
#[derive(Clone, Copy)]
pub(crate) struct Asked {
    /// How many tools were started.
    pub(crate) starts: u64,
    /// How many bytes the object has.
    pub(crate) length: u64,
    /// How many calls are kept then.
    pub(crate) kept: u64,
}

/// How many bytes the object of a reply has, and 0 where it shows no simple one.
pub(crate) fn shown_length(reply: &Reply) -> u64
    ensures { result ≡ shown_length reply.now }
{
    match reply {
        Reply::Shown {
            status: _,
            body: ShownBody::Simple(text),
            messages: _,
        } => text.len() as u64,
        _ => 0,
    }
}
