//! Laws of what a person is shown. Each is the contract of a function with an empty body.
ghost use Rattle.shown_texts.specs.ShownLaws.{ShownByCharacters, ShownIsReadBack, ShownIsUtf8, ShownMovesNothing, ShownTellsText};

/// What is shown has no control and no character that moves it.
pub fn shown_moves_nothing()
    ensures { ShownMovesNothing }
{}

/// What is shown is UTF-8.
pub fn shown_is_utf8()
    ensures { ShownIsUtf8 }
{}

/// Of a text of UTF-8 each character is shown by itself.
pub fn shown_by_characters()
    ensures { ShownByCharacters }
{}

/// The bytes of a text follow from what is shown of it.
pub fn shown_is_read_back()
    ensures { ShownIsReadBack }
{}

/// Two texts that are shown the same are the same.
pub fn shown_tells_text()
    ensures { ShownTellsText }
{}
