//! What is written reads back as nothing else. Each law is the contract of a function with an empty body.
ghost use Rattle.odin_bytes.specs.Laws.{NumbersReadBack, EscapesReadBack, FieldsReadBack};

/// A spelling of a number is of no other.
pub fn numbers_read_back()
    ensures { NumbersReadBack }
{}

/// A spelling of a text is of no other.
pub fn escapes_read_back()
    ensures { EscapesReadBack }
{}

/// Where two fields of one kind begin what is the same, they and what is after them are the same.
pub fn fields_read_back()
    ensures { FieldsReadBack }
{}
