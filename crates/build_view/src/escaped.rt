//! Texts on a page of HTML.
ghost use Rattle.std.specs.Prelude.{◌≡◌, ◌++◌, OnOk};
ghost use Rattle.build_view.specs.Escaped as meaning;
ghost use Rattle.build_view.specs.EscapedLaws.{EscapedIsNoMarkup, WordsHaveNoControl};

use object_values::{Bytes, Memory};
use shown_texts::shown::write_shown;
use std::alloc::Global;

/// Adds a byte, or the entity that names it where it is markup.
fn write_entity(byte: u8, out: &mut Bytes) -> Result<(), Memory>
    ensures { OnOk result (out.new ≡ out.old ++ meaning.entity byte) }
{
    match byte {
        b'"' => out.extend_from_slice(b"&quot;"),
        b'&' => out.extend_from_slice(b"&amp;"),
        b'\'' => out.extend_from_slice(b"&#39;"),
        b'<' => out.extend_from_slice(b"&lt;"),
        b'>' => out.extend_from_slice(b"&gt;"),
        _ => out.push(byte),
    }
}

/// Adds a text with none of its bytes as markup. Where memory is wanted, it leaves what it began.
fn write_escaped(text: &[u8], out: &mut Bytes) -> Result<(), Memory>
    ensures { OnOk result (out.new ≡ out.old ++ meaning.escaped text.now) }
{
    for byte in text {
        write_entity(*byte, out)?;
    }
    Ok(())
}

/// Adds a text as a person is shown it. Where memory is wanted, it leaves what it began.
pub fn write_words(alloc: Global, text: &[u8], out: &mut Bytes) -> Result<(), Memory>
    ensures { OnOk result (out.new ≡ out.old ++ meaning.words text.now) }
{
    let mut shown = Bytes::new(alloc);
    write_shown(text, &mut shown)?;
    write_escaped(shown.as_slice(), out)
}

/// No byte of an escaped text begins or ends markup, and each `&` begins one of five entities.
pub fn escaped_is_no_markup()
    ensures { EscapedIsNoMarkup }
{}

/// What the page has of a text has no control byte.
pub fn words_have_no_control()
    ensures { WordsHaveNoControl }
{}
