// Words, cut from a line.
ghost use Rattle.std.specs.Prelude.{IfOk, IfSome, IfNone};
ghost use Rattle.meaning_texts.specs.Lists.{HasNo};
ghost use Rattle.odin_bytes.specs.Words.{IsCutAt, MayName};

use crate::names::{Name, NameFault};
use memchr::memchr;
use object_values::Memory;
use std::alloc::Global;

/// What stands before the first such byte, and what stands after it.
pub fn cut_at(byte: u8, text: &[u8]) -> Option<(&[u8], &[u8])>
    ensures some { IfSome result (λ cut. IsCutAt byte text.now cut.0.now cut.1.now) }
    ensures none { IfNone result (HasNo byte text.now) }
{
    match memchr(byte, text) {
        Some(at) => Some((&text[..at], &text[at + 1..])),
        None => None,
    }
}

/// The name that a word is, if it is one.
pub fn read_name(alloc: Global, word: &[u8]) -> Result<Option<Name>, Memory>
    ensures { IfOk result (MayName word.now) }
{
    match Name::read(alloc, word) {
        Ok(name) => Ok(Some(name)),
        Err(NameFault::Memory) => Err(Memory),
        Err(NameFault::Empty) => Ok(None),
        Err(NameFault::TooLong) => Ok(None),
        Err(NameFault::BadByte(_)) => Ok(None),
    }
}
