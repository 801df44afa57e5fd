// Where the store is.
ghost use Rattle.std.specs.Prelude.{◌≡◌, IfOk, IfSome, None, codes, map, string_bytes};
ghost use Rattle.odin_start.specs.Store.{AskForGraph};

use object_values::Memory;
use odin_words::{Work, read_words};
use std::alloc::Global;

/// The file that sources and kept calls are in, in the current folder.
const STORE: &str = "odin.store";

/// Where the store of these words is, in the current folder: nowhere where they ask for no graph.
pub fn store_of(alloc: Global, words: &[String]) -> Result<Option<&'static str>, Memory>
    ensures some { IfOk result (λ found. IfSome found (λ path.
        (path.now ≡ codes "odin.store") × AskForGraph (map string_bytes words.now))) }
    ensures none { IfOk result (λ found.
        found ≡ None → ¬ AskForGraph (map string_bytes words.now)) }
{
    let Some(asked) = read_words(alloc, words)? else {
        return Ok(None);
    };
    match asked.work {
        Work::Serve(_) => Ok(Some(STORE)),
        Work::Load(_) => Ok(None),
    }
}
