//! Texts, one after another.
ghost use Rattle.std.specs.Prelude.{◌≡◌, ◌++◌, IfOk, OnOk, flat_map};
ghost use Rattle.meaning_texts.specs.Lines.{with_lf};

use object_values::{Bytes, Memory};
use std::alloc::Global;

/// Adds texts, one a line. Where memory is wanted, it leaves what it began.
fn write_lines(texts: &[Bytes], out: &mut Bytes) -> Result<(), Memory>
    ensures { OnOk result (out.new ≡ out.old ++ flat_map with_lf texts.now) }
{
    for text in texts {
        out.extend_from_slice(text.as_slice())?;
        out.push(b'\n')?;
    }
    Ok(())
}

/// Texts, each with an LF after it: the graph of all is that of the first one, whose lines stand where they stood, and then those of the others.
pub fn joined(alloc: Global, texts: &[Bytes]) -> Result<Bytes, Memory>
    ensures { IfOk result (λ text. text ≡ flat_map with_lf texts.now) }
{
    let mut text = Bytes::new(alloc);
    write_lines(texts, &mut text)?;
    Ok(text)
}
