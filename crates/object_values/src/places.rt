// Where a name stands, or would stand.
ghost use Rattle.std.specs.Prelude.{◌≡◌, [], IfOk, IfErr, IfSome, IfNone, T};
ghost use Rattle.std.specs.FinMap as map;
ghost use Rattle.std.specs.Ordering.{nat_cmp};
ghost use Rattle.std.specs.Cmp.Lexicographic.{slice_cmp};
ghost use Rattle.object_values.specs.Blocks.{AreFilled, AreSorted, IsBlockOf, first_of};
ghost use Rattle.object_values.specs.Places.{IsAt, IsGap};

use crate::block::Block;
use crate::text::Text;
use sequences::Bytes;
use std::cmp::Ordering;

/// The block to which a name belongs: the last one whose first name isn't greater, or else the first one. There is none where there are no
/// blocks.
pub(crate) fn block_of(blocks: &[Block], name: &[u8]) -> Option<usize>
    requires sorted { AreSorted blocks.now }
    requires filled { AreFilled blocks.now }
    ensures some { IfSome result (IsBlockOf blocks.now name.now) }
    ensures none { IfNone result (blocks.now ≡ []) }
{
    if blocks.is_empty() {
        return None;
    }
    let found = blocks.binary_search_by(
        |block| -> Ordering
            ensures { result ≡ slice_cmp nat_cmp (first_of block.now) name.entry.now }
        { first_of(block).cmp(&name) },
    );
    match found {
        Ok(at) => Some(at),
        Err(next) => Some(next.saturating_sub(1)),
    }
}

// The first name of a block.
fn first_of(block: &Block) -> &[u8]
    ensures { result.now ≡ first_of block.now }
{
    match block.as_slice().first() {
        Some(pair) => pair.0.as_slice(),
        None => &[],
    }
}

/// Where the name is among the pairs of a block, or where it would go.
pub(crate) fn place_of(pairs: &[(Bytes, Text)], name: &[u8]) -> Result<usize, usize>
    requires { T (map.is_sorted (slice_cmp nat_cmp) pairs.now) }
    ensures found { IfOk result (IsAt pairs.now name.now) }
    ensures gap { IfErr result (IsGap pairs.now name.now) }
{
    pairs.binary_search_by(
        |pair| -> Ordering
            ensures { result ≡ slice_cmp nat_cmp pair.now.0 name.entry.now }
        { pair.0.as_slice().cmp(&name) },
    )
}
