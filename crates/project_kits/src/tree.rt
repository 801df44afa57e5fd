//! Files that are made, over a tree.
ghost use Rattle.std.specs.Prelude.{◌≡◌, IfOk, option_map, take};
ghost use Rattle.std.specs.Option.{option_copied};
ghost use Rattle.odin_outside.specs.Causes.{HasCauseBut, once_more};
ghost use Rattle.odin_outside.specs.Files.{IsGiven, given_file_limit};
ghost use Rattle.project_kits.specs.Trees as meaning;

use object_values::{BODY_LIMIT, Bytes, FileBody, Memory, Seq};
use odin_outside::{Tree, TreeFault};
use std::alloc::Global;

/// How many bytes of a file are given at most: one more than a text may have, so that a longer one shows.
const LIMIT: usize = BODY_LIMIT + 1;

/// A tree, over which made files lie: of several files of one name the first made one counts, and that of the tree last.
#[derive(Drop)]
pub struct MadeTree<T: Tree + Drop> {
    made: Seq<FileBody>,
    under: T,
    reads: u64,
}

/// The made file of a name.
pub fn made_of<'a>(made: &'a [FileBody], name: &[u8]) -> Option<&'a FileBody>
    ensures { option_copied result ≡ meaning.made_of made.now name.now }
{
    made.iter().find(|file| file.name.as_slice() == name)
}

/// The bytes of a file, cut at the limit.
fn given_of(alloc: Global, file: &FileBody) -> Result<Bytes, Memory>
    ensures { IfOk result (λ given. given ≡ take given_file_limit file.now.body) }
{
    let body = file.body.as_slice();
    Bytes::from_slice(alloc, &body[..body.len().min(LIMIT)])
}

impl<T: Tree + Drop> MadeTree<T> {
    pub fn new(made: Seq<FileBody>, under: T) -> Self
        ensures made { result.made ≡ made }
        ensures under { result.under ≡ under }
        ensures reads { result.reads ≡ 0 }
    {
        MadeTree {
            made,
            under,
            reads: 0,
        }
    }
}

impl<T: Tree + Drop> Tree for MadeTree<T> {
    ghost files = { λ t. option_map (meaning.laid_over t.made) (T.files t.under) };

    ghost faults = { λ t. T.faults t.under };

    ghost reads = { λ t. t.reads };

    fn read(&mut self, alloc: Global, name: &[u8]) -> Result<Option<Bytes>, TreeFault>
        ensures ok { IfOk result (IsGiven
            (option_map (meaning.laid_over self.old.made) (T.files self.old.under)) name.now) }
        ensures kept { option_map (meaning.laid_over self.new.made) (T.files self.new.under)
            ≡ option_map (meaning.laid_over self.old.made) (T.files self.old.under) }
        ensures counted { self.new.reads ≡ once_more self.old.reads }
        ensures cause { HasCauseBut TreeFault.Memory (T.faults self.old.under)
            (T.faults self.new.under) result }
    {
        self.reads = self.reads.saturating_add(1);
        match made_of(self.made.as_slice(), name) {
            Some(file) => Ok(Some(given_of(alloc, file)?)),
            None => self.under.read(alloc, name),
        }
    }
}
