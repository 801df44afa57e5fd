// The files of a job.
ghost use Rattle.std.specs.Prelude.{◌≡◌, [], unwrap_or};
ghost use Rattle.std.specs.List.{list_all};
ghost use Rattle.meaning_texts.specs.Classes as class;
ghost use Rattle.meaning_calls.specs.Outcomes.{file_in};
ghost use Rattle.odin_memory.specs.Inputs as meaning;

use object_values::FileBody;

/// The file of the first input.
pub(crate) const FIRST_INPUT: &[u8] = b"i1";

fn is_digit(byte: u8) -> bool
    ensures { result ≡ class.is_digit byte }
{
    matches!(byte, b'0'..=b'9')
}

fn are_digits(text: &[u8]) -> bool
    ensures { result ≡ list_all class.is_digit text.now }
{
    text.iter().all(|byte| is_digit(*byte))
}

fn is_number_from_one(text: &[u8]) -> bool
    ensures { result ≡ meaning.is_number_from_one text.now }
{
    match text {
        [] | [b'0', ..] => false,
        _ => are_digits(text),
    }
}

/// Whether the file of that name is an input: `i` and a number from 1.
pub(crate) fn is_input_name(name: &[u8]) -> bool
    ensures { result ≡ meaning.is_input_name name.now }
{
    match name {
        [b'i', number @ ..] => is_number_from_one(number),
        _ => false,
    }
}

/// The body of the first file of that name, or nothing.
pub(crate) fn body_of<'a>(files: &'a [FileBody], name: &[u8]) -> &'a [u8]
    ensures { result.now ≡ unwrap_or (file_in name.now files.now) [] }
{
    for file in files {
        if file.name.as_slice() == name {
            return file.body.as_slice();
        }
    }
    &[]
}
