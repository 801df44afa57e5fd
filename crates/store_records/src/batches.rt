// Batches: items one after the other.
ghost use Rattle.std.specs.Prelude.{◌≡◌, IfOk, OnOk};
ghost use Rattle.std.specs.List.{All};
ghost use Rattle.meaning_records.specs.Records.{item};
ghost use Rattle.meaning_records.specs.States.{spell_batch};

use crate::groups::put_members;
use framed_payloads::FramedPayload;
use object_values::{Bytes, Item, Memory, Value};
use std::alloc::Global;

// Room for what an item has beside a text.
const SMALL: usize = 1024;

/// The payload of a batch, in the buffer from which it is written.
pub fn write_batch(alloc: Global, items: &[Item]) -> Result<FramedPayload, Memory>
    ensures spelled { IfOk result (λ payload. payload ≡ spell_batch items.now) }
    ensures fits { OnOk result (All item.fits items.now) }
{
    let mut bytes = FramedPayload::begin(alloc, room_for(items))?;
    put_members(items, &mut bytes)?;
    FramedPayload::finish(bytes)
}

/// The payload of a batch alone.
pub fn write_items(alloc: Global, items: &[Item]) -> Result<Bytes, Memory>
    ensures spelled { IfOk result (λ payload. payload ≡ spell_batch items.now) }
    ensures fits { OnOk result (All item.fits items.now) }
{
    let mut payload = Bytes::new(alloc);
    payload.reserve_exact(room_for(items))?;
    put_members(items, &mut payload)?;
    Ok(payload)
}

// About as many bytes as the items have.
fn room_for(items: &[Item]) -> usize {
    let mut room = 0_usize;
    for item in items {
        let text = match item {
            Item::Graph(text) => text.len(),
            Item::Content(Value::Simple(text)) => text.len(),
            _ => 0,
        };
        room = room.saturating_add(text).saturating_add(SMALL);
    }
    room
}
