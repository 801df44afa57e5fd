// A node that is looked for among records, with its marks.
ghost use Rattle.std.specs.Prelude.{◌≡◌};
ghost use Rattle.kept_records.specs.NodeMarks.{digest_of, hash_of};

use content_store::{Mark, ShaHasher, Sought};
use object_values::{Node, NodeRecord};
use std::hash::{FoldHasher, Hash, Hasher};

/// The node of a record, which is looked for among others: nothing of it is copied. A quick hash leads to a record; a digest is taken only where another
/// node has the same hash.
pub(crate) struct SoughtNode<'a> {
    pub(crate) records: &'a [NodeRecord],
    pub(crate) node: &'a Node,
}

impl Drop for SoughtNode<'_> {
    fn drop(self) {
        let SoughtNode {
            records: _,
            node: _,
        } = self;
    }
}

impl Sought for SoughtNode<'_> {
    ghost use Rattle.std.specs.Prelude.{Some};
    ghost use Rattle.kept_records.specs.Records.{node_at};
    ghost use Rattle.kept_records.specs.NodeMarks.{marks_of};

    ghost marks = { λ s. marks_of s.node.now };

    ghost is_at = { λ s i. node_at s.records.now i ≡ Some s.node.now };

    fn levels(&self) -> usize {
        2
    }

    fn mark(&self, level: usize) -> Mark {
        match level {
            0 => Mark::Quick(hash_node(self.node)),
            _ => Mark::Digest(digest_node(self.node)),
        }
    }

    fn is_at(&self, number: u64) -> bool {
        match self.records.get(number as usize) {
            Some(kept) => kept.node == *self.node,
            None => false,
        }
    }
}

fn hash_node(node: &Node) -> u64
    ensures { result ≡ hash_of node.now }
{
    let mut state = FoldHasher::default();
    node.hash(&mut state);
    state.finish()
}

fn digest_node(node: &Node) -> [u8; 32]
    ensures { result ≡ digest_of node.now }
{
    let mut state = ShaHasher::default();
    node.hash(&mut state);
    state.digest()
}
