// Bytes that grow, are copied and are cut.
use object_values::{Bytes, Copied, Memory, Seq, same};
use std::alloc::Global;
use std::test::Fail;

// Adds `cde` at the end.
fn grow(bytes: &mut Bytes) -> Result<(), Memory> {
    bytes.reserve_exact(3)?;
    bytes.push(b'c')?;
    bytes.extend_from_slice(b"de")
}

// The bytes `abcde`, which are `ab` at first.
fn grown(alloc: Global) -> Result<Bytes, Memory> {
    let mut bytes = Bytes::from_slice(alloc, b"ab")?;
    grow(&mut bytes)?;
    Ok(bytes)
}

// A copy of the bytes that was taken apart and put together again.
fn again(alloc: Global, bytes: &Bytes) -> Result<Bytes, Memory> {
    Ok(Bytes::from_vec(bytes.copy(alloc)?.into_vec()?))
}

// Whether the bytes are those of the copy until they are cut.
fn are_cut(bytes: &mut Bytes, again: &Bytes) -> bool {
    if bytes.as_slice() != b"abcde".as_slice() || !same(again, bytes) {
        return false;
    }
    bytes.truncate(2);
    if bytes.as_slice() != b"ab".as_slice() {
        return false;
    }
    bytes.clear();
    bytes.is_empty() && bytes.len() == 0 && !same(again, bytes)
}

#[test]
fn bytes_grow_at_their_end(rt: HostRuntime) -> Result<(), Fail> {
    let mut bytes = grown(rt.alloc())?;
    let again = again(rt.alloc(), &bytes)?;
    assert!(rt; are_cut(&mut bytes, &again));
    Ok(())
}
