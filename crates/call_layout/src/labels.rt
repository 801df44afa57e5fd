// Labels as paths.
ghost use Rattle.std.specs.Prelude.{◌≡◌, bytes_eq};
ghost use Rattle.std.specs.List.{list_all, list_any};
ghost use Rattle.meaning_texts.specs.Classes.{is_digit};
ghost use Rattle.call_layout.specs.Labels.{is_dots, leads_down, stays_below, first_step, is_part_file, is_own_name, is_taken};

use object_values::Bytes;
use odin_bytes::cut_at;

/// Whether a step is the folder itself, or the one above it.
fn is_dots(step: &[u8]) -> bool
    ensures { result ≡ is_dots step.now }
{
    step == b".".as_slice() || step == b"..".as_slice()
}

/// Whether a step leads from a folder to what is right in it.
fn leads_down(step: &[u8]) -> bool
    ensures { result ≡ leads_down step.now }
{
    !step.is_empty() && !is_dots(step) && !step.contains(&0)
}

/// Whether a path leads to what is below the folder in which it is followed, by whatever is there.
pub fn stays_below(path: &[u8]) -> bool
    ensures { result ≡ stays_below path.now }
{
    let mut rest = path;
    'steps: while let Some((step, behind)) = cut_at(b'/', rest) {
        if !leads_down(step) {
            return false;
        }
        rest = behind;
    }
    leads_down(rest)
}

/// The first step of a path.
fn first_step(path: &[u8]) -> &[u8]
    ensures { result.now ≡ first_step path.now }
{
    match cut_at(b'/', path) {
        Some((step, _)) => step,
        None => path,
    }
}

fn are_digits(text: &[u8]) -> bool
    ensures { result ≡ list_all is_digit text.now }
{
    text.iter().all(|byte| matches!(*byte, b'0'..=b'9'))
}

/// Whether a name is `i` and digits, as those of the files of parts.
fn is_part_file(name: &[u8]) -> bool
    ensures { result ≡ is_part_file name.now }
{
    match name {
        [b'i', digits @ ..] => !digits.is_empty() && are_digits(digits),
        _ => false,
    }
}

/// Whether a file of an output has a name.
fn is_out(outs: &[Bytes], name: &[u8]) -> bool
    ensures { result ≡ list_any (λ out. bytes_eq out name.now) outs.now }
{
    outs.iter().any(|out| out.as_slice() == name)
}

/// Whether odin puts a file of this name there itself, or looks for it.
fn is_own_name(outs: &[Bytes], name: &[u8]) -> bool
    ensures { result ≡ is_own_name outs.now name.now }
{
    name == b"call".as_slice()
        || name == b"warnings".as_slice()
        || name == b"no-outcome".as_slice()
        || is_part_file(name)
        || is_out(outs, name)
}

/// Whether a path begins at a file that odin puts into the folder of a call, or looks for in it afterwards.
pub fn is_taken(outs: &[Bytes], path: &[u8]) -> bool
    ensures { result ≡ is_taken outs.now path.now }
{
    is_own_name(outs, first_step(path))
}
