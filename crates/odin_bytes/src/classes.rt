// The classes of words and strings, as tests.
ghost use Rattle.std.specs.Prelude.{◌≡◌};
ghost use Rattle.std.specs.List.{list_all};
ghost use Rattle.meaning_texts.specs.Classes.{is_key_byte, is_name_byte, is_value_byte, is_string_byte, begins_with_letter};
ghost use Rattle.meaning_texts.specs.Tests.{is_name, is_id, is_key, is_param_of_class, is_param_value, is_string_text};

use object_values::{ParamValue, WORD_LIMIT};

/// Whether the text is a NAME, which is also a WORD: 1 to 255 letters, digits, `.`, `_`, `-` and `/`.
pub fn is_name(text: &[u8]) -> bool
    ensures { result ≡ is_name text.now }
{
    !text.is_empty() && text.len() <= WORD_LIMIT && are_name_bytes(text)
}

/// Whether the text is an ID: a letter, and then letters, digits and `_`, 1 to 255 bytes in all.
pub fn is_id(text: &[u8]) -> bool
    ensures { result ≡ is_id text.now }
{
    begins_with_letter(text) && text.len() <= WORD_LIMIT && are_key_bytes(text)
}

/// Whether the text is a KEY: letters, digits and `_`, 1 to 255 bytes in all.
pub fn is_key(text: &[u8]) -> bool
    ensures { result ≡ is_key text.now }
{
    !text.is_empty() && text.len() <= WORD_LIMIT && are_key_bytes(text)
}

/// Whether the names of parameters are IDs, and their values of their class.
pub fn are_params(params: &[ParamValue]) -> bool
    ensures { result ≡ list_all is_param_of_class params.now }
{
    params.iter().all(|param| is_param(param))
}

fn is_param(param: &ParamValue) -> bool
    ensures { result ≡ is_param_of_class param.now }
{
    is_id(param.param.as_slice()) && is_param_value(param.value.as_slice())
}

fn is_param_value(text: &[u8]) -> bool
    ensures { result ≡ is_param_value text.now }
{
    text.iter().all(|byte| is_value_byte(*byte))
}

/// Whether the text may stand between the quotes of a STRING.
pub fn is_string_text(text: &[u8]) -> bool
    ensures { result ≡ is_string_text text.now }
{
    text.len() <= WORD_LIMIT && are_string_bytes(text)
}

fn are_name_bytes(text: &[u8]) -> bool
    ensures { result ≡ list_all is_name_byte text.now }
{
    text.iter().all(|byte| is_name_byte(*byte))
}

fn are_key_bytes(text: &[u8]) -> bool
    ensures { result ≡ list_all is_key_byte text.now }
{
    text.iter().all(|byte| is_key_byte(*byte))
}

fn are_string_bytes(text: &[u8]) -> bool
    ensures { result ≡ list_all is_string_byte text.now }
{
    text.iter().all(|byte| is_string_byte(*byte))
}

/// A letter, a digit, `.`, `_`, `-` or `/`.
pub fn is_name_byte(byte: u8) -> bool
    ensures { result ≡ is_name_byte byte }
{
    byte.is_ascii_alphanumeric() || matches!(byte, b'.' | b'_' | b'-' | b'/')
}

/// A letter, a digit or `_`.
pub fn is_key_byte(byte: u8) -> bool
    ensures { result ≡ is_key_byte byte }
{
    byte.is_ascii_alphanumeric() || byte == b'_'
}

/// A byte of the value of a parameter: 33 to 126, but for `+`, `:` and `%`.
pub fn is_value_byte(byte: u8) -> bool
    ensures { result ≡ is_value_byte byte }
{
    matches!(byte, b'!'..=b'~') && !matches!(byte, b'+' | b':' | b'%')
}

fn is_string_byte(byte: u8) -> bool
    ensures { result ≡ is_string_byte byte }
{
    matches!(byte, b' '..=b'~') && byte != b'"'
}

fn begins_with_letter(text: &[u8]) -> bool
    ensures { result ≡ begins_with_letter text.now }
{
    match text.first() {
        Some(byte) => byte.is_ascii_alphabetic(),
        None => false,
    }
}
