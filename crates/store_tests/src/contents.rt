// Contents by number, under keys that are all equal and under digests.
use content_store::{Contents, Keying, OneKey, ShaKeys};
use object_values::{Bytes, Copied, Memory, Text};
use std::alloc::Global;
use std::test::Fail;

// How many bodies are interned, one after another.
const MANY: u32 = 3_000;

// The factor of the quick hash, which takes the second half of 16 bytes by xor with it: where that half is the factor itself, the hash is 0.
const TO_NOUGHT: u64 = 0x9e37_79b9_7f4a_7c15;

// The SHA-256 digest of `abc`, of FIPS 180-4.
const DIGEST: [u8; 32] = [
    0xba, 0x78, 0x16, 0xbf, 0x8f, 0x01, 0xcf, 0xea, 0x41, 0x41, 0x40, 0xde, 0x5d, 0xae, 0x22, 0x23,
    0xb0, 0x03, 0x61, 0xa3, 0x96, 0x17, 0x7a, 0x9c, 0xb4, 0x10, 0xff, 0x61, 0xf2, 0x00, 0x15, 0xad,
];

// The numbers of `abc`, `abd` and `abc` again.
fn first_numbers<K: Keying>(
    alloc: Global,
    contents: &mut Contents<K>,
) -> Result<(u64, u64, u64), Memory> {
    let a = contents.intern_slice(alloc, b"abc")?;
    let b = contents.intern(alloc, &Text::of(Bytes::from_slice(alloc, b"abd")?)?)?;
    let c = contents.intern(alloc, &Text::of(Bytes::from_slice(alloc, b"abc")?)?)?;
    Ok((a, b, c))
}

// Whether just `abc` and `abd` are there.
fn are_first<K: Keying>(contents: &Contents<K>) -> bool {
    contents.len() == 2
        && contents.get(0) == b"abc".as_slice()
        && contents.text(1).as_slice() == b"abd".as_slice()
        && contents.find(b"abc") == Some(0)
        && contents.find(b"abd") == Some(1)
        && contents.find(b"ab").is_none()
}

// Interns many bodies, each a number and this half, and says how many got the number of their turn.
fn many<K: Keying>(alloc: Global, contents: &mut Contents<K>, half: u64) -> Result<u32, Memory> {
    let mut right: u32 = 0;
    for number in 0..MANY {
        let body = u128::from(half) << 64 | u128::from(number);
        let id = contents.intern_slice(alloc, &body.to_le_bytes())?;
        if id == u64::from(number) {
            right = right.wrapping_add(1);
        }
    }
    Ok(right)
}

// Whether many bodies with this half are numbered in turn, and keep their numbers.
fn are_in_turn<K: Keying>(
    mut contents: Contents<K>,
    alloc: Global,
    half: u64,
) -> Result<bool, Memory> {
    let first = many(alloc, &mut contents, half)?;
    let again = many(alloc, &mut contents, half)?;
    Ok(first == MANY && again == MANY && contents.len() == u64::from(MANY))
}

#[test]
fn bodies_of_one_key_are_told_apart(rt: HostRuntime) -> Result<(), Fail> {
    let mut contents = Contents::<OneKey>::new(rt.alloc());
    let numbers = first_numbers(rt.alloc(), &mut contents)?;
    assert!(rt; numbers == (0, 1, 0));
    assert!(rt; are_first(&contents));
    Ok(())
}

#[test]
fn bodies_of_their_digests_are_told_apart(rt: HostRuntime) -> Result<(), Fail> {
    let mut contents = Contents::<ShaKeys>::new(rt.alloc());
    let numbers = first_numbers(rt.alloc(), &mut contents)?;
    assert!(rt; numbers == (0, 1, 0));
    assert!(rt; are_first(&contents));
    Ok(())
}

#[test]
fn a_key_is_a_digest(rt: HostRuntime) -> Result<(), Fail> {
    assert!(rt; ShaKeys::key(b"abc") == DIGEST);
    assert!(rt; OneKey::key(b"abc") == OneKey::key(b"abd"));
    Ok(())
}

#[test]
fn many_bodies_are_numbered_in_turn(rt: HostRuntime) -> Result<(), Fail> {
    for half in [0, TO_NOUGHT] {
        assert!(rt; are_in_turn(Contents::<ShaKeys>::new(rt.alloc()), rt.alloc(), half)?);
    }
    Ok(())
}

#[test]
fn many_bodies_of_one_key_are_numbered_in_turn(rt: HostRuntime) -> Result<(), Fail> {
    for half in [0, TO_NOUGHT] {
        assert!(rt; are_in_turn(Contents::<OneKey>::new(rt.alloc()), rt.alloc(), half)?);
    }
    Ok(())
}
