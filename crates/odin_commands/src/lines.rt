// Lines with words and numbers. Each writer adds its text at the end; where memory is wanted it leaves what it began.
ghost use Rattle.std.specs.Prelude.{◌++◌};
ghost use Rattle.std.specs.List.{flat_map};
ghost use Rattle.meaning_texts.specs.Lines.{with_lf};
ghost use Rattle.meaning_commands.specs.Replies.{word_and_number, counted_lines};
ghost use Rattle.odin_commands.specs.Writing.{AppendsText};

use object_values::{Bytes, Memory};
use odin_bytes::write_number;

pub(crate) fn write_line(text: &[u8], out: &mut Bytes) -> Result<(), Memory>
    ensures { AppendsText result out.old out.new (with_lf text.now) }
{
    out.extend_from_slice(text)?;
    out.push(b'\n')
}

/// A word and what it is about, with nothing between.
pub(crate) fn write_named(word: &[u8], name: &[u8], out: &mut Bytes) -> Result<(), Memory>
    ensures { AppendsText result out.old out.new (with_lf (word.now ++ name.now)) }
{
    out.extend_from_slice(word)?;
    write_line(name, out)
}

/// A word and a number.
pub(crate) fn write_counted(word: &[u8], count: u64, out: &mut Bytes) -> Result<(), Memory>
    ensures { AppendsText result out.old out.new (with_lf (word_and_number word.now count)) }
{
    out.extend_from_slice(word)?;
    out.push(b' ')?;
    write_number(count, out)?;
    out.push(b'\n')
}

/// A word, what it is about and a number.
pub(crate) fn write_named_count(
    word: &[u8],
    name: &[u8],
    count: u64,
    out: &mut Bytes,
) -> Result<(), Memory>
    ensures { AppendsText result out.old out.new
        (with_lf (word_and_number (word.now ++ name.now) count)) }
{
    out.extend_from_slice(word)?;
    write_counted(name, count, out)
}

fn write_each(lines: &[Bytes], out: &mut Bytes) -> Result<(), Memory>
    ensures { AppendsText result out.old out.new (flat_map with_lf lines.now) }
{
    for line in lines {
        write_line(line.as_slice(), out)?;
    }
    Ok(())
}

/// A word with the number of the lines, and these lines.
pub(crate) fn write_lines(word: &[u8], lines: &[Bytes], out: &mut Bytes) -> Result<(), Memory>
    ensures { AppendsText result out.old out.new (counted_lines word.now lines.now) }
{
    write_counted(word, lines.len() as u64, out)?;
    write_each(lines, out)
}
