// Copies, which may want memory.
ghost use Rattle.std.specs.Prelude.{◌≡◌, IfOk};

use crate::memory::Memory;
use std::alloc::Global;

/// A type whose values can be made again.
pub trait Copied: Sized + Drop {
    /// An equal value.
    fn copy(&self, alloc: Global) -> Result<Self, Memory>
        ensures { IfOk result (λ copy. copy ≡ self.now) };

    /// Equal values of many. Bytes are copied at once.
    fn copy_all(alloc: Global, items: &[Self]) -> Result<Vec<Self>, Memory>
        ensures { IfOk result (λ copies. copies.items ≡ items.now) }
    {
        let mut copies = Vec::new(alloc);
        copies.reserve_exact(items.len())?;
        for item in items {
            copies.push(item.copy(alloc)?)?;
        }
        Ok(copies)
    }
}

/// Copies of two values. Its types are its callers' own, so what it lets go where it fails is proved once, here.
pub fn copy_two<A: Copied, B: Copied>(alloc: Global, a: &A, b: &B) -> Result<(A, B), Memory>
    ensures first { IfOk result (λ made. made.0 ≡ a.now) }
    ensures second { IfOk result (λ made. made.1 ≡ b.now) }
{
    let a = a.copy(alloc)?;
    let b = b.copy(alloc)?;
    Ok((a, b))
}

/// Copies of five values.
pub fn copy_five<A: Copied, B: Copied, C: Copied, D: Copied, E: Copied>(
    alloc: Global,
    a: &A,
    b: &B,
    c: &C,
    d: &D,
    e: &E,
) -> Result<(A, B, C, D, E), Memory>
    ensures first { IfOk result (λ made. made.0 ≡ a.now) }
    ensures second { IfOk result (λ made. made.1 ≡ b.now) }
    ensures third { IfOk result (λ made. made.2 ≡ c.now) }
    ensures fourth { IfOk result (λ made. made.3 ≡ d.now) }
    ensures fifth { IfOk result (λ made. made.4 ≡ e.now) }
{
    let a = a.copy(alloc)?;
    let b = b.copy(alloc)?;
    let c = c.copy(alloc)?;
    let d = d.copy(alloc)?;
    let e = e.copy(alloc)?;
    Ok((a, b, c, d, e))
}

impl Copied for u8 {
    fn copy(&self, _alloc: Global) -> Result<Self, Memory> {
        Ok(*self)
    }

    fn copy_all(alloc: Global, items: &[Self]) -> Result<Vec<Self>, Memory> {
        Ok(items.to_vec(alloc)?)
    }
}

impl Copied for u32 {
    fn copy(&self, _alloc: Global) -> Result<Self, Memory> {
        Ok(*self)
    }
}

impl Copied for u64 {
    fn copy(&self, _alloc: Global) -> Result<Self, Memory> {
        Ok(*self)
    }
}

impl<T: Copied> Copied for Option<T> {
    fn copy(&self, alloc: Global) -> Result<Self, Memory> {
        match self {
            None => Ok(None),
            Some(value) => Ok(Some(value.copy(alloc)?)),
        }
    }
}
