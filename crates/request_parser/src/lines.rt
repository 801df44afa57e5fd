// The lines of a reference list.
ghost use Rattle.std.specs.Prelude.{◌≡◌, IfOk};
ghost use Rattle.meaning_texts.specs.Reading.{expression_of};
ghost use Rattle.meaning_texts.specs.References.{is_passed_over, read_line, ReferenceList};

use crate::fault::ExpressionFault;
use crate::read::read_expression;
use object_values::{Line, Lines, Memory, REFERENCE_LIMIT, Seq};
use odin_bytes::next_line;
use std::alloc::Global;

/// The lines of a reference list. Where there are too many, reading stops at the first that is.
pub fn read_lines(alloc: Global, text: &[u8]) -> Result<Lines, Memory>
    ensures { IfOk result (ReferenceList text.now) }
{
    let room = text.iter().filter(|byte| **byte == b'\n').count();
    let mut lines = Seq::from_vec(Vec::with_capacity(alloc, room.min(REFERENCE_LIMIT))?);
    let mut number = 0;
    let mut rest = text;
    'lines: while let Some((line, behind)) = next_line(rest) {
        number += 1;
        rest = behind;
        if !is_passed_over(line) {
            if lines.len() == REFERENCE_LIMIT {
                return Ok(Lines::TooMany);
            }
            lines.push(read_line(alloc, number, line)?)?;
        }
    }
    Ok(Lines::These(lines))
}

fn is_passed_over(line: &[u8]) -> bool
    ensures { result ≡ is_passed_over line.now }
{
    match line.first() {
        Some(byte) => *byte == b'#',
        None => true,
    }
}

// What the line of this number, which isn't passed over, says.
fn read_line(alloc: Global, number: u64, text: &[u8]) -> Result<Line, Memory>
    ensures { IfOk result (λ line. line ≡ read_line number (expression_of text.now)) }
{
    match read_expression(alloc, text) {
        Ok(expression) => Ok(Line::Good(number, expression)),
        Err(ExpressionFault::BadAt(_)) => Ok(Line::Bad(number)),
        Err(ExpressionFault::Memory) => Err(Memory),
    }
}
