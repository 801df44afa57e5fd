// Files whose records of nodes have the right form and lie: a session over one ends, replies, and keeps its edits, and is right where the lie is in what is
// settled again.
mod told;

use self::told::{Lie, lying_file};
use super::runs::{NONE, Ran, disk_of, run_over};
use super::sessions::Text;
use object_values::{Memory, Status};
use odin_commands::read_replies;
use std::alloc::Global;
use std::test::Fail;

// What isn't trusted.
const SETTLED_AGAIN: &[Lie] = &[
    Lie::Present(Status::Ok),
    Lie::Present(Status::Warning),
    Lie::Present(Status::Error),
    Lie::Message,
    Lie::Height(1),
    Lie::Height(2),
    Lie::Height(3),
    Lie::Height(4),
    Lie::Height(63),
    Lie::Height(64),
];

// What is said of a source isn't looked at. Its value may be of the wrong kind.
const OF_SOURCE: &[Lie] = &[Lie::OfSource];

// What is trusted. Of these the values may be of the wrong kind, or missing where the status isn't abort.
const TRUSTED: &[Lie] = &[
    Lie::Without(0),
    Lie::Without(1),
    Lie::Without(2),
    Lie::Twice(0),
    Lie::Twice(1),
    Lie::Twice(2),
    Lie::Later(0),
    Lie::Later(1),
    Lie::With(0),
    Lie::With(1),
    Lie::With(2),
    Lie::With(3),
    Lie::With(4),
    Lie::Seen(0, 0),
    Lie::Seen(0, 1),
    Lie::Seen(0, 2),
    Lie::Seen(1, 0),
    Lie::Seen(1, 1),
    Lie::Seen(1, 2),
    Lie::Seen(1, 4),
    Lie::Unseen(0),
    Lie::Unseen(1),
    Lie::Reached(0),
    Lie::Reached(1),
    Lie::Own(Status::Ok),
    Lie::Own(Status::Warning),
    Lie::Own(Status::Error),
    Lie::Own(Status::Abort),
    Lie::OwnMessage,
];

const VALUES: &[Lie] = &[
    Lie::NoValue,
    Lie::Value(0),
    Lie::Value(1),
    Lie::Value(2),
    Lie::Value(3),
    Lie::Value(4),
    Lie::Value(5),
    Lie::Value(6),
    Lie::Value(7),
    Lie::Value(8),
    Lie::Value(9),
    Lie::Value(99),
];

const EDITS: Text =
    b"put m.sm 4\na.c\nput a.c 4\nx=1\nask m.sm:exe\nput a.c 11\nx=1\n//!old\nask m.sm:exe\n";

// The file after these edits.
fn true_file(alloc: Global) -> Result<Vec<u8>, Memory> {
    let mut disk = disk_of(alloc, b"")?;
    let _ = run_over(alloc, "1", NONE, &mut disk, EDITS)?;
    Ok(disk.image().to_vec(alloc)?)
}

const OLD: Text = b"sources 2\na.c 11\nm.sm 4\n";

const NEW: Text = b"sources 2\na.c 4\nm.sm 4\n";

const QUESTIONS: Text =
    b"sources\nask m.sm:exe\nask a.c:o\nask m.sm:objs\nask m.sm:exe\nput a.c 4\nx=2\nask m.sm:exe\nask m.sm:exe\nsources\n";

const WARNING: Text = b"object warning simple 4\nx=1\n\nmessages 1\nwarning a.c:o old\n";

const LISTED: Text = b"object ok list 1\na.c:o\nmessages 0\n";

const EDITED: Text = b"object ok simple 4\nx=2\n\nmessages 0\n";

// The replies of a session over what is true.
fn right_replies(alloc: Global) -> Result<Vec<u8>, Memory> {
    let mut text = OLD.to_vec(alloc)?;
    for part in [
        WARNING,
        WARNING,
        LISTED,
        WARNING,
        b"put a.c 4\n",
        EDITED,
        EDITED,
        NEW,
    ] {
        text.extend_from_slice(part)?;
    }
    Ok(text)
}

// Whether all of an output are so many replies, of which the first and the last are these.
fn are_replies(
    alloc: Global,
    ran: &Ran,
    count: usize,
    first: &[u8],
    last: &[u8],
) -> Result<bool, Memory> {
    let output = ran.output.as_slice();
    let Some(replies) = read_replies(alloc, output)? else {
        return Ok(false);
    };
    let told = output.starts_with(first) && output.ends_with(last);
    Ok(ran.status == 0 && told && replies.len() == count)
}

// Whether the file has the edit, and is answered.
fn is_kept(alloc: Global, image: &[u8]) -> Result<bool, Memory> {
    let mut disk = disk_of(alloc, image)?;
    let commands = b"sources\nask m.sm:exe\nask a.c:o\nsources\n";
    let ran = run_over(alloc, "3", NONE, &mut disk, commands)?;
    are_replies(alloc, &ran, 4, NEW, NEW)
}

// Whether a session ended since the file is no store's, and left it as it was.
fn is_not_ours(ran: &Ran, left: &[u8], image: &[u8]) -> bool {
    ran.status == 7 && ran.output.as_slice().starts_with(b"store: not ours at ") && left == image
}

// How a session over a file may go.
#[derive(Clone, Copy, PartialEq, Eq)]
enum Course {
    Right,
    Answered,
    NotOurs,
}

// How it goes, where it goes well.
fn course_over(alloc: Global, image: &[u8], jobs: &str) -> Result<Option<Course>, Memory> {
    let mut disk = disk_of(alloc, image)?;
    let ran = run_over(alloc, jobs, NONE, &mut disk, QUESTIONS)?;
    if is_not_ours(&ran, disk.image(), image) {
        return Ok(Some(Course::NotOurs));
    }
    if !are_replies(alloc, &ran, 9, OLD, NEW)? || !is_kept(alloc, disk.image())? {
        return Ok(None);
    }
    if ran.replied(right_replies(alloc)?.as_slice()) {
        return Ok(Some(Course::Right));
    }
    Ok(Some(Course::Answered))
}

// Whether sessions over a file go so, with one tool at a time and with three.
fn goes(alloc: Global, image: &[u8], courses: &[Course]) -> Result<bool, Memory> {
    for jobs in ["1", "3"] {
        match course_over(alloc, image, jobs)? {
            Some(course) if courses.contains(&course) => {}
            _ => return Ok(false),
        }
    }
    Ok(true)
}

// The node and the lie, by their places, at which a session goes otherwise. After the last node all of them lie.
fn first_wrong(
    alloc: Global,
    lies: &[Lie],
    courses: &[Course],
) -> Result<Option<(u64, usize)>, Memory> {
    let whole = true_file(alloc)?;
    for node in 0..6u64 {
        let place = (node < 5).then_some(node);
        for (row, lie) in lies.iter().enumerate() {
            let image = lying_file(alloc, whole.as_slice(), place, *lie)?;
            if !goes(alloc, image.as_slice(), courses)? {
                return Ok(Some((node, row)));
            }
        }
    }
    Ok(None)
}

#[test]
fn what_is_settled_again_may_lie(rt: HostRuntime) -> Result<(), Fail> {
    assert_eq!(rt;
        first_wrong(rt.alloc(), SETTLED_AGAIN, &[Course::Right])?,
        None
    );
    assert_eq!(rt;
        first_wrong(rt.alloc(), OF_SOURCE, &[Course::Right, Course::NotOurs])?,
        None
    );
    Ok(())
}

#[test]
fn what_is_trusted_may_lie_and_breaks_nothing(rt: HostRuntime) -> Result<(), Fail> {
    let courses = [Course::Right, Course::Answered];
    assert_eq!(rt; first_wrong(rt.alloc(), TRUSTED, &courses)?, None);
    let courses = [Course::Right, Course::Answered, Course::NotOurs];
    assert_eq!(rt; first_wrong(rt.alloc(), VALUES, &courses)?, None);
    Ok(())
}
