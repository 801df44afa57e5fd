// The reply that the last ask was given.
ghost use Rattle.std.specs.Prelude.{◌≡◌};
ghost use Rattle.std.specs.Option.{option_copied};
ghost use Rattle.build_files.specs.Answers as meaning;

use object_values::Status;
use odin_commands::Reply;

/// Whether a reply answers an ask.
fn answers_ask(reply: &Reply) -> bool
    ensures { result ≡ meaning.answers_ask reply.now }
{
    matches!(
        reply,
        Reply::Shown { .. }
            | Reply::RefusedExpression(_)
            | Reply::RefusedParam(_)
            | Reply::RefusedType(_)
            | Reply::RefusedPath(_)
            | Reply::RefusedCircular(_)
            | Reply::RefusedDeep(_)
            | Reply::RefusedToolStart
    )
}

/// The later of two answers, of which the second is one only if it answers an ask.
fn later<'a>(last: Option<&'a Reply>, reply: &'a Reply) -> Option<&'a Reply>
    ensures { option_copied result ≡
        meaning.later (option_copied last.entry) (meaning.reply_to_ask reply.now) }
{
    if answers_ask(reply) {
        Some(reply)
    } else {
        last
    }
}

/// The last reply that answers an ask.
pub fn last_answer(replies: &[Reply]) -> Option<&Reply>
    ensures { option_copied result ≡ meaning.last_answer replies.now }
{
    let mut last = None;
    for reply in replies {
        last = later(last, reply);
    }
    last
}

fn status_of(status: Status) -> u8
    ensures { result ≡ meaning.object_exit_status status }
{
    match status {
        Status::Ok => 0,
        Status::Warning => 1,
        Status::Error | Status::Abort => 2,
    }
}

/// The exit status by the answer.
pub fn exit_status(answer: Option<&Reply>) -> u8
    ensures { result ≡ meaning.exit_status (option_copied answer.entry) }
{
    match answer {
        Some(Reply::Shown { status, .. }) => status_of(*status),
        _ => 2,
    }
}
