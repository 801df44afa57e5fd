// Keys of a table with their texts.
ghost use Rattle.std.specs.Prelude.{◌≡◌, ◌∷◌, [], IfOk, map};
ghost use Rattle.toml.specs.View.{view};
ghost use Rattle.project_file.specs.Refusals.{Reads};
ghost use Rattle.project_kits.specs.Entries as meaning;

use object_values::{Bytes, Memory, Seq};
use project_file::project::{Flaw, Refused};
use project_file::texts::{refusal, texts_of};
use std::alloc::Global;
use toml::Value;

fn one_text(alloc: Global, text: &str) -> Result<Seq<Bytes>, Memory>
    ensures { IfOk result (λ texts. texts ≡ text.now ∷ []) }
{
    let mut texts = Seq::new(alloc);
    texts.push(Bytes::from_slice(alloc, text.as_bytes())?)?;
    Ok(texts)
}

/// A text, or the texts of a list that has nothing else.
fn one_or_more(alloc: Global, value: &Value) -> Result<Option<Seq<Bytes>>, Memory>
    ensures { IfOk result (λ found. found ≡ meaning.one_or_more (view value.now)) }
{
    match value.as_str() {
        Some(text) => Ok(Some(one_text(alloc, text)?)),
        None => texts_of(alloc, value),
    }
}

/// The texts at a place.
pub(crate) fn texts_at(alloc: Global, place: &[&[u8]], value: &Value) -> Result<Seq<Bytes>, Refused>
    ensures { Reads (meaning.texts_at (map (λ key. key.now) place.now) (view value.now)) result }
{
    match one_or_more(alloc, value)? {
        Some(texts) => Ok(texts),
        None => Err(refusal(alloc, place, Flaw::NotTexts)),
    }
}
