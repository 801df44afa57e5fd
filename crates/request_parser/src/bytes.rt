// Classes of bytes, of which runs are taken, and of words.
ghost use Rattle.std.specs.Prelude.{◌≡◌};
ghost use Rattle.request_parser.specs.Runs.{has, word_class_of, begins};

use odin_bytes::{is_key_byte, is_name_byte, is_value_byte};

/// A class of bytes.
#[derive(Clone, Copy)]
pub(crate) enum Class {
    Space,
    Name,
    Key,
    Value,
}

/// What a word has to be.
#[derive(Clone, Copy)]
pub(crate) enum Wanted {
    Name,
    Id,
    Key,
}

impl Class {
    pub(crate) fn has(self, byte: u8) -> bool
        ensures { result ≡ has self byte }
    {
        match self {
            Class::Space => byte == b' ',
            Class::Name => is_name_byte(byte),
            Class::Key => is_key_byte(byte),
            Class::Value => is_value_byte(byte),
        }
    }
}

impl Wanted {
    /// Of which bytes such a word is.
    pub(crate) fn class(self) -> Class
        ensures { result ≡ word_class_of self }
    {
        match self {
            Wanted::Name => Class::Name,
            Wanted::Id | Wanted::Key => Class::Key,
        }
    }

    /// Whether a run of its bytes, of any length, begins such a word.
    pub(crate) fn begins(self, run: &[u8]) -> bool
        ensures { result ≡ begins self run.now }
    {
        let Some(first) = run.first() else {
            return false;
        };
        match self {
            Wanted::Id => first.is_ascii_alphabetic(),
            Wanted::Name | Wanted::Key => true,
        }
    }
}
