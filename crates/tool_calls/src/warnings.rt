// The messages that a tool leaves in its file `warnings`.
ghost use Rattle.std.specs.Prelude.{◌≡◌, ◌++◌, take, map, filter, OnOk, IfOk, [], ◌∷◌};
ghost use Rattle.meaning_texts.specs.Limits.{message_length};
ghost use Rattle.meaning_calls.specs.Outcomes as meaning;

use object_values::{Bytes, MESSAGE_LENGTH, MESSAGE_LIMIT, Memory, OwnLine, Seq, Status, Text};
use odin_bytes::{drop_cr, first_line};
use std::alloc::Global;

// Adds the line, if it isn't empty.
fn put_line(
    alloc: Global,
    level: Status,
    line: &[u8],
    lines: &mut Seq<OwnLine>,
) -> Result<(), Memory>
    ensures { OnOk result (lines.new ≡ lines.old ++
        map (λ text. meaning.at_level level (take message_length text))
        (filter meaning.has_byte (line.now ∷ []))) }
{
    if line.is_empty() {
        return Ok(());
    }
    let length = MESSAGE_LENGTH.min(line.len());
    lines.push(OwnLine {
        level,
        text: Text::of(Bytes::from_slice(alloc, &line[..length])?)?,
    })
}

/// The lines that count, each as a message of this level.
pub(crate) fn own_lines(
    alloc: Global,
    level: Status,
    warnings: &[u8],
) -> Result<Seq<OwnLine>, Memory>
    ensures { IfOk result (λ lines. lines ≡
        map (meaning.at_level level) (meaning.message_lines warnings.now)) }
{
    let mut lines = Seq::new(alloc);
    let mut rest = warnings;
    'lines: while lines.len() < MESSAGE_LIMIT {
        let Some((line, behind)) = first_line(rest) else {
            put_line(alloc, level, rest, &mut lines)?;
            return Ok(lines);
        };
        put_line(alloc, level, drop_cr(line), &mut lines)?;
        rest = behind;
    }
    Ok(lines)
}
