// The first words of replies, grouped by what is said after them.
ghost use Rattle.std.specs.Prelude.{◌≡◌, ◌≢◌, ◌++◌, ℕ, List, IfSome, IfNone};
ghost use Rattle.odin_commands.specs.declared.verbs.Verb.{Verb};
ghost use Rattle.odin_commands.specs.Verbs.{alone_word, numbered_word, named_word, identified_word, measured_word, listed_word, word_of, alone_reply, numbered_reply, named, identified, measured, listed};

use object_values::{Bytes, Reply, Seq};

/// The words of a reply that says nothing after them.
#[derive(Clone, Copy)]
pub(crate) enum Alone {
    Bye,
    RefusedCommand,
    RefusedName,
    RefusedSize,
    RefusedRead,
    RefusedToolStart,
}

/// Those of one with a number.
#[derive(Clone, Copy)]
pub(crate) enum Numbered {
    Kept,
    RefusedExpression,
    RefusedPath,
}

/// Those of one with the name of a source.
#[derive(Clone, Copy)]
pub(crate) enum Named {
    NoFile,
    Dropped,
    NoSource,
}

/// Those of one with the name of a parameter or of a type.
#[derive(Clone, Copy)]
pub(crate) enum Identified {
    RefusedParam,
    RefusedType,
}

/// Those of one with the name of a source, and how long its text is.
#[derive(Clone, Copy)]
pub(crate) enum Measured {
    Put,
    Took,
}

/// Those of one with lines, after their number.
#[derive(Clone, Copy)]
pub(crate) enum Listed {
    Sources,
    Plan,
    RefusedCircular,
    RefusedDeep,
}

/// The first words of a reply.
#[derive(Clone, Copy)]
pub(crate) enum Verb {
    Alone(Alone),
    Numbered(Numbered),
    Named(Named),
    Identified(Identified),
    Measured(Measured),
    Listed(Listed),
    /// An object and its messages.
    Object,
}

// All of them. None begins with another.
const VERBS: &[Verb] = &[
    Verb::Object,
    Verb::Measured(Measured::Put),
    Verb::Measured(Measured::Took),
    Verb::Named(Named::NoFile),
    Verb::Named(Named::Dropped),
    Verb::Named(Named::NoSource),
    Verb::Listed(Listed::Sources),
    Verb::Listed(Listed::Plan),
    Verb::Listed(Listed::RefusedCircular),
    Verb::Listed(Listed::RefusedDeep),
    Verb::Numbered(Numbered::Kept),
    Verb::Numbered(Numbered::RefusedExpression),
    Verb::Numbered(Numbered::RefusedPath),
    Verb::Identified(Identified::RefusedParam),
    Verb::Identified(Identified::RefusedType),
    Verb::Alone(Alone::Bye),
    Verb::Alone(Alone::RefusedCommand),
    Verb::Alone(Alone::RefusedName),
    Verb::Alone(Alone::RefusedSize),
    Verb::Alone(Alone::RefusedRead),
    Verb::Alone(Alone::RefusedToolStart),
];

impl Alone {
    fn word(self) -> &'static [u8]
        ensures { result.now ≡ alone_word self }
    {
        match self {
            Alone::Bye => b"bye",
            Alone::RefusedCommand => b"refused command",
            Alone::RefusedName => b"refused name",
            Alone::RefusedSize => b"refused size",
            Alone::RefusedRead => b"refused read",
            Alone::RefusedToolStart => b"refused tool start",
        }
    }

    pub(crate) fn reply(self) -> Reply
        ensures { result ≡ alone_reply self }
    {
        match self {
            Alone::Bye => Reply::Bye,
            Alone::RefusedCommand => Reply::RefusedCommand,
            Alone::RefusedName => Reply::RefusedName,
            Alone::RefusedSize => Reply::RefusedSize,
            Alone::RefusedRead => Reply::RefusedRead,
            Alone::RefusedToolStart => Reply::RefusedToolStart,
        }
    }
}

impl Numbered {
    fn word(self) -> &'static [u8]
        ensures { result.now ≡ numbered_word self }
    {
        match self {
            Numbered::Kept => b"kept ",
            Numbered::RefusedExpression => b"refused expression ",
            Numbered::RefusedPath => b"refused path ",
        }
    }

    pub(crate) fn reply(self, number: u64) -> Reply
        ensures { result ≡ numbered_reply self number }
    {
        match self {
            Numbered::Kept => Reply::Kept(number),
            Numbered::RefusedExpression => Reply::RefusedExpression(number),
            Numbered::RefusedPath => Reply::RefusedPath(number),
        }
    }
}

impl Named {
    fn word(self) -> &'static [u8]
        ensures { result.now ≡ named_word self }
    {
        match self {
            Named::NoFile => b"no file ",
            Named::Dropped => b"dropped ",
            Named::NoSource => b"no source ",
        }
    }

    pub(crate) fn reply(self, name: Bytes) -> Reply
        ensures { result ≡ named self name }
    {
        match self {
            Named::NoFile => Reply::NoFile(name),
            Named::Dropped => Reply::Dropped(name),
            Named::NoSource => Reply::NoSource(name),
        }
    }
}

impl Identified {
    fn word(self) -> &'static [u8]
        ensures { result.now ≡ identified_word self }
    {
        match self {
            Identified::RefusedParam => b"refused param ",
            Identified::RefusedType => b"refused type ",
        }
    }

    pub(crate) fn reply(self, name: Bytes) -> Reply
        ensures { result ≡ identified self name }
    {
        match self {
            Identified::RefusedParam => Reply::RefusedParam(name),
            Identified::RefusedType => Reply::RefusedType(name),
        }
    }
}

impl Measured {
    fn word(self) -> &'static [u8]
        ensures { result.now ≡ measured_word self }
    {
        match self {
            Measured::Put => b"put ",
            Measured::Took => b"took ",
        }
    }

    pub(crate) fn reply(self, name: Bytes, count: u64) -> Reply
        ensures { result ≡ measured self name count }
    {
        match self {
            Measured::Put => Reply::Put(name, count),
            Measured::Took => Reply::Took(name, count),
        }
    }
}

impl Listed {
    fn word(self) -> &'static [u8]
        ensures { result.now ≡ listed_word self }
    {
        match self {
            Listed::Sources => b"sources ",
            Listed::Plan => b"plan ",
            Listed::RefusedCircular => b"refused circular ",
            Listed::RefusedDeep => b"refused deep ",
        }
    }

    pub(crate) fn reply(self, lines: Seq<Bytes>) -> Reply
        ensures { result ≡ listed self lines }
    {
        match self {
            Listed::Sources => Reply::Sources(lines),
            Listed::Plan => Reply::Plan(lines),
            Listed::RefusedCircular => Reply::RefusedCircular(lines),
            Listed::RefusedDeep => Reply::RefusedDeep(lines),
        }
    }
}

impl Verb {
    fn word(self) -> &'static [u8]
        ensures { result.now ≡ word_of self }
    {
        match self {
            Verb::Alone(verb) => verb.word(),
            Verb::Numbered(verb) => verb.word(),
            Verb::Named(verb) => verb.word(),
            Verb::Identified(verb) => verb.word(),
            Verb::Measured(verb) => verb.word(),
            Verb::Listed(verb) => verb.word(),
            Verb::Object => b"object ",
        }
    }
}

/// The words that a text begins with, and what stands after them.
pub(crate) fn cut_verb(text: &[u8]) -> Option<(Verb, &[u8])>
    ensures some { IfSome result (λ cut. text.now ≡ word_of cut.0 ++ cut.1.now) }
    ensures none { IfNone result ((verb : Verb) (behind : List ℕ) →
        text.now ≢ word_of verb ++ behind) }
{
    for verb in VERBS {
        if let Some(behind) = text.strip_prefix(verb.word()) {
            return Some((*verb, behind));
        }
    }
    None
}
