// Images that a stop in the middle of a write or a cut may leave.
ghost use Rattle.std.specs.Prelude.{◌≡◌, max, length, take, IfOk, OnOk};
ghost use Rattle.odin_outside.specs.Disk.{Torn, Cut};
ghost use Rattle.odin_memory.specs.Calls.{Holds};
ghost use Rattle.odin_memory.specs.Choices.{TearsAs, past_digit};

use crate::choice::Choice;
use crate::disk::overwrite;
use object_values::Memory;
use std::alloc::Global;

// Adds zeros up to a size.
fn pad(alloc: Global, image: &mut Vec<u8>, size: usize) -> Result<(), Memory>
    ensures size { OnOk result (length image.new.items ≡ max (length image.old.items) size) }
    ensures front { OnOk result (take (length image.old.items) image.new.items ≡ image.old.items) }
{
    if image.len() < size {
        let zeros = vec![in alloc; 0u8; size - image.len()]?;
        image.extend_from_slice(&zeros)?;
    }
    Ok(())
}

// Writes bytes at an offset, with zeros before them where the image ends before it.
fn place(alloc: Global, image: &mut Vec<u8>, start: usize, bytes: &[u8]) -> Result<(), Memory>
    ensures torn { OnOk result (Torn start (length bytes.now) image.old.items image.new.items) }
    ensures whole { OnOk result (Holds image.old start bytes.now image.new) }
{
    pad(alloc, image, start)?;
    overwrite(image, start, bytes)?;
    Ok(())
}

// Fills so many bytes from an offset on with one byte.
fn fill(
    alloc: Global,
    image: &mut Vec<u8>,
    start: usize,
    count: usize,
    byte: u8,
) -> Result<(), Memory>
    ensures { OnOk result (Torn start count image.old.items image.new.items) }
{
    let bytes = vec![in alloc; byte; count]?;
    place(alloc, image, start, &bytes)
}

// Bytes that may stand where new ones were to replace old ones: runs of either, of those that were written before, and of any.
fn mixed(
    alloc: Global,
    old: &[u8],
    new: &[u8],
    earlier: &[u8],
    choice: &mut Choice,
) -> Result<Vec<u8>, Memory>
    ensures { IfOk result (λ bytes. length bytes.items ≡ length new.now) }
{
    let mut bytes = new.to_vec(alloc)?;
    let mut kind = choice.up_to(3);
    let mut shift = choice.up_to(earlier.len());
    for (place, byte) in bytes.iter_mut().enumerate() {
        if choice.up_to(3) == 0 {
            kind = choice.up_to(3);
            shift = choice.up_to(earlier.len());
        }
        *byte = match kind {
            0 => *byte,
            1 => old.get(place).copied().unwrap_or(0),
            2 => earlier
                .get(shift.saturating_add(place))
                .copied()
                .unwrap_or(1),
            _ => choice.up_to(255) as u8,
        };
    }
    Ok(bytes)
}

// Writes some of such bytes in the place of a write.
fn mix_write(
    alloc: Global,
    image: &mut Vec<u8>,
    start: usize,
    bytes: &[u8],
    earlier: &[u8],
    choice: &mut Choice,
) -> Result<(), Memory>
    ensures { OnOk result (Torn start (length bytes.now) image.old.items image.new.items) }
{
    let old = &image[start.min(image.len())..];
    let bytes = mixed(alloc, old, bytes, earlier, choice)?;
    let count = choice.up_to(bytes.len());
    place(alloc, image, start, &bytes[..count])
}

// Cuts the image somewhere after a size, and puts such bytes there.
fn mix_cut(
    alloc: Global,
    image: &mut Vec<u8>,
    size: usize,
    earlier: &[u8],
    choice: &mut Choice,
) -> Result<(), Memory>
    ensures { OnOk result (Cut size image.old.items image.new.items) }
{
    let kept = image.len().min(size);
    let count = choice.up_to(image.len() - kept);
    image.truncate(kept + count);
    let bytes = mixed(alloc, &[], &image[kept..], earlier, choice)?;
    overwrite(image, kept, &bytes)?;
    Ok(())
}

/// What a stop in the middle of a write may leave: 0 the whole write, 1 none of it, 2 its first half, 3 its second half, 4 zeros in its
/// place, 5 ones, 6 bytes of 255, and 7 a mixture.
pub fn tear_write(
    alloc: Global,
    image: &mut Vec<u8>,
    start: usize,
    bytes: &[u8],
    earlier: &[u8],
    choice: &mut Choice,
) -> Result<(), Memory>
    ensures torn { OnOk result (Torn start (length bytes.now) image.old.items image.new.items) }
    ensures whole { TearsAs 0 choice.old → OnOk result (Holds image.old start bytes.now image.new) }
    ensures none { TearsAs 1 choice.old → OnOk result (image.new.items ≡ image.old.items) }
    ensures past { TearsAs 0 choice.old → choice.new ≡ past_digit choice.old }
{
    let half = bytes.len() / 2;
    match choice.how() {
        0 => place(alloc, image, start, bytes),
        1 => Ok(()),
        2 => place(alloc, image, start, &bytes[..half]),
        3 => place(alloc, image, start.saturating_add(half), &bytes[half..]),
        4 => fill(alloc, image, start, bytes.len(), 0),
        5 => fill(alloc, image, start, bytes.len(), 1),
        6 => fill(alloc, image, start, bytes.len(), 255),
        _ => mix_write(alloc, image, start, bytes, earlier, choice),
    }
}

/// What a stop in the middle of a cut may leave: 0 the whole cut, 1 none of it, 2 half of it, 3 to 6 none of it with bytes of 255 past
/// it, and 7 a mixture.
pub fn tear_cut(
    alloc: Global,
    image: &mut Vec<u8>,
    size: usize,
    earlier: &[u8],
    choice: &mut Choice,
) -> Result<(), Memory>
    ensures torn { OnOk result (Cut size image.old.items image.new.items) }
    ensures whole { TearsAs 0 choice.old → OnOk result
        (image.new.items ≡ take size image.old.items) }
    ensures none { TearsAs 1 choice.old → OnOk result (image.new.items ≡ image.old.items) }
    ensures past { TearsAs 0 choice.old → choice.new ≡ past_digit choice.old }
{
    let past = image.len().saturating_sub(size);
    match choice.how() {
        0 => image.truncate(size),
        1 => {}
        2 => image.truncate(image.len() - past / 2),
        7 => mix_cut(alloc, image, size, earlier, choice)?,
        _ => {
            let bytes = vec![in alloc; 255u8; past]?;
            overwrite(image, image.len() - past, &bytes)?;
        }
    }
    Ok(())
}
