// Names of sources.
ghost use Rattle.std.specs.Prelude.{◌≡◌, IfOk, IfErr, not, position};
ghost use Rattle.meaning_texts.specs.Classes.{is_name_byte, IsName};
ghost use Rattle.odin_bytes.specs.Names.{IsNameFault};

use crate::classes::is_name_byte;
use object_values::{Bytes, Copied, Exact, Memory, WORD_LIMIT};
use std::alloc::Global;
use std::marker::Model;

/// The name of a source: 1 to 255 letters, digits, `.`, `_`, `-` and `/`.
#[derive(PartialEq, Eq, PartialOrd, Ord, Hash)]
pub struct Name {
    text: Bytes,
}

impl Drop for Name {
    fn drop(self) {
        let Name { text } = self;
        drop(text);
    }
}

impl Model for Name {
    ghost use Rattle.std.specs.Prelude.{List, ℕ};
    ghost use Rattle.meaning_texts.specs.Classes.{IsName};

    ghost Value = { List ℕ };

    ghost view = { λ n. n.text };

    ghost invariant = { λ n. IsName n.text };

    ghost inverse = { λ text. record { text = text } };
}

/// Why a text is no name, tested in this order.
#[derive(Clone, Copy, PartialEq, Eq)]
pub enum NameFault {
    Empty,
    /// More than 255 bytes.
    TooLong,
    /// The first place, from 0, of a byte that no name has.
    BadByte(u32),
    Memory,
}

impl From<Memory> for NameFault {
    ghost use Rattle.std.specs.Prelude.{◌≡◌};
    ghost use Rattle.odin_bytes.specs.declared.names.NameFault.TheVariants as fault;

    ghost from_gives = { λ _ given. given ≡ fault.Memory };

    fn from(_: Memory) -> Self {
        NameFault::Memory
    }
}

impl Copied for NameFault {
    fn copy(&self, _alloc: Global) -> Result<Self, Memory> {
        Ok(*self)
    }
}

impl Name {
    #[tactic(auto, using(crate::proofs::NameLemmas::named))]
    pub fn read(alloc: Global, text: &[u8]) -> Result<Self, NameFault>
        ensures ok { IfOk result (λ name. name ≡ text.now) }
        ensures named { IfOk result IsName }
        ensures err { IfErr result (IsNameFault text.now) }
    {
        if text.is_empty() {
            return Err(NameFault::Empty);
        }
        if text.len() > WORD_LIMIT {
            return Err(NameFault::TooLong);
        }
        if let Some(place) = bad_place(text) {
            return Err(NameFault::BadByte(place as u32));
        }
        Ok(Name {
            text: Bytes::from_slice(alloc, text)?,
        })
    }

    pub fn as_slice(&self) -> &[u8]
        ensures bytes { result.now ≡ self.now }
        ensures named { IsName self.now }
    {
        self.text.as_slice()
    }

    /// The same bytes, without memory.
    pub fn into_bytes(self) -> Bytes
        ensures bytes { result ≡ self }
        ensures named { IsName self }
    {
        let Name { text } = self;
        text
    }
}

impl Exact for Name {
    ghost use Rattle.std.specs.Cmp.Lexicographic.{bytes_decides};

    ghost exact = { bytes_decides };
}

impl Copied for Name {
    fn copy(&self, alloc: Global) -> Result<Self, Memory> {
        Ok(Name {
            text: self.text.copy(alloc)?,
        })
    }
}

// The first place of a byte that no name has.
fn bad_place(text: &[u8]) -> Option<usize>
    ensures { result ≡ position (λ b. not (is_name_byte b)) text.now }
{
    text.iter().position(|byte| !is_name_byte(*byte))
}
