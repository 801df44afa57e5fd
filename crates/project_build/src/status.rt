// The exit status by the replies.
ghost use Rattle.std.specs.Prelude.{◌≡◌};
ghost use Rattle.std.specs.List.{list_any};
ghost use Rattle.std.specs.Option.{option_copied};
ghost use Rattle.project_build.specs.Statuses as meaning;

use object_values::{Reply, ShownBody, Status};

/// Whether an object has errors, or was aborted.
fn is_faulty(status: Status) -> bool
    ensures { result ≡ meaning.is_faulty status }
{
    match status {
        Status::Ok | Status::Warning => false,
        Status::Error | Status::Abort => true,
    }
}

/// What is shown of an object without errors.
pub(crate) fn good_body(reply: &Reply) -> Option<&ShownBody>
    ensures { option_copied result ≡ meaning.good_body reply.now }
{
    match reply {
        Reply::Shown { status, body, .. } => { if is_faulty(*status) { None } else { Some(body) } }
        _ => None,
    }
}

/// Whether a reply shows an object with errors.
fn has_errors(reply: &Reply) -> bool
    ensures { result ≡ meaning.has_errors reply.now }
{
    match reply {
        Reply::Shown { status, .. } => is_faulty(*status),
        _ => false,
    }
}

/// Whether a reply shows no object.
fn is_refusal(reply: &Reply) -> bool
    ensures { result ≡ meaning.is_refusal reply.now }
{
    !matches!(reply, Reply::Shown { .. })
}

fn some_are_refused(replies: &[Reply]) -> bool
    ensures { result ≡ list_any meaning.is_refusal replies.now }
{
    replies.iter().any(is_refusal)
}

fn some_have_errors(replies: &[Reply]) -> bool
    ensures { result ≡ list_any meaning.has_errors replies.now }
{
    replies.iter().any(has_errors)
}

/// The exit status of a build that got these replies: 0 where each is an object without errors, 1 where there are errors, and 2 where one is refused.
pub fn status_of(replies: &[Reply]) -> u8
    ensures { result ≡ meaning.build_status replies.now }
{
    if some_are_refused(replies) {
        2
    } else if some_have_errors(replies) {
        1
    } else {
        0
    }
}
