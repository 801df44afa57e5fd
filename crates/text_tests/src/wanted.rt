// Declarations as tables name them, beside those that were read.
use object_values::{Bytes, Decl, Extra, Kind, Make, Seq, ToolDecl, TypeDecl};

pub(super) type Text = &'static [u8];

// A declaration as it is wanted.
#[derive(Clone, Copy)]
pub(super) enum Wanted {
    Simple(Text, &'static [Text]),
    List(Text, Text),
    Compound(Text, &'static [(Text, Text)]),
    Suffix(Text, Text),
    Param(Text),
    Read(Text, Text, Text),
    Each(Text, Text, Text),
    Pack(Text, Text, Text),
    /// A tool of one word, with no options.
    Tool(Text, Text, Text, Text),
    WithOptions(Text, Text, Text, Options),
}

// The word of a tool, and what may be left out.
#[derive(Clone, Copy)]
pub(super) struct Options {
    pub(super) word: Text,
    pub(super) uses: &'static [Text],
    pub(super) also: Option<Text>,
    pub(super) with: Option<Text>,
    pub(super) closure: Option<Text>,
}

fn plain(word: Text) -> Options {
    Options {
        word,
        uses: &[],
        also: None,
        with: None,
        closure: None,
    }
}

fn are(found: &Seq<Bytes>, wanted: &[Text]) -> bool {
    found.len() == wanted.len()
        && found
            .as_slice()
            .iter()
            .zip(wanted)
            .all(|(bytes, text)| bytes.as_slice() == *text)
}

fn is_some_text(found: Option<&Bytes>, wanted: Option<Text>) -> bool {
    match (found, wanted) {
        (Some(bytes), Some(text)) => bytes.as_slice() == text,
        (None, None) => true,
        _ => false,
    }
}

fn is_type(found: &TypeDecl, wanted: Wanted) -> bool {
    match (&found.kind, wanted) {
        (Kind::Simple, Wanted::Simple(name, supers)) => found.name.as_slice() == name
            && are(&found.supers, supers),
        (Kind::List(element), Wanted::List(name, of)) => found.name.as_slice() == name
            && element.as_slice() == of
            && found.supers.is_empty(),
        (Kind::Compound(parts), Wanted::Compound(name, pairs)) => {
            found.name.as_slice() == name
                && found.supers.is_empty()
                && parts.len() == pairs.len()
                && parts.as_slice().iter().zip(pairs).all(|(part, (name, of))| part.name.as_slice()
                    == *name
                    && part.of.as_slice() == *of)
        }
        _ => false,
    }
}

fn has_options(found: &ToolDecl, wanted: &Options) -> bool {
    let mut also = None;
    let mut with = None;
    for extra in found.extras.as_slice() {
        match extra {
            Extra::Also(id) => also = Some(id),
            Extra::With(name) => with = Some(name),
        }
    }
    found.version.as_slice() == b"1".as_slice()
        && are(&found.words, &[wanted.word])
        && are(&found.uses, wanted.uses)
        && is_some_text(also, wanted.also)
        && is_some_text(with, wanted.with)
        && is_some_text(found.closure.as_ref(), wanted.closure)
}

pub(super) fn is_wanted(found: &Decl, wanted: Wanted) -> bool {
    match (found, wanted) {
        (Decl::ObjectType(declared), _) => is_type(declared, wanted),
        (Decl::Suffix(declared), Wanted::Suffix(suffix, of)) => declared.suffix.as_slice() == suffix
            && declared.of.as_slice() == of,
        (Decl::Param(id), Wanted::Param(name)) => id.as_slice() == name,
        (Decl::Maker(maker), _) => {
            let (name, from, to, fits) = match (&maker.make, &wanted) {
                (Make::Read, Wanted::Read(name, from, to)) => (*name, *from, *to, true),
                (Make::Each, Wanted::Each(name, from, to)) => (*name, *from, *to, true),
                (Make::Pack, Wanted::Pack(name, from, to)) => (*name, *from, *to, true),
                (Make::Tool(tool), Wanted::Tool(name, from, to, word)) => (
                    *name,
                    *from,
                    *to,
                    has_options(tool, &plain(word)),
                ),
                (Make::Tool(tool), Wanted::WithOptions(name, from, to, options)) => (
                    *name,
                    *from,
                    *to,
                    has_options(tool, options),
                ),
                _ => return false,
            };
            fits && maker.name.as_slice() == name
                && maker.from.as_slice() == from
                && maker.to.as_slice() == to
        }
        _ => false,
    }
}
