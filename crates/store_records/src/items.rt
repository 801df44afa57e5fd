// The items of batches.

use crate::contents::{put_content, take_content};
use crate::places::take_u8;
use crate::recorded::Recorded;
use object_values::{Bytes, Item, Memory, StoredCall, StoredOutcome, StoredRecord, Text};
use odin_bytes::put_u8;
use std::alloc::Global;

type KeptFields = (StoredCall, StoredOutcome);

impl Recorded for Item {
    ghost use Rattle.meaning_records.specs.Records.{item};
    ghost use Rattle.meaning_records.specs.FormLemmas.{one_item};

    ghost form = { item };

    fn put(&self, out: &mut Bytes) -> Result<(), Memory> {
        match self {
            Item::Graph(text) => {
                put_u8(out, 1)?;
                text.put(out)
            }
            Item::Content(value) => {
                put_u8(out, 2)?;
                put_content(value, out)
            }
            Item::Put(name, number) => {
                put_u8(out, 3)?;
                name.put(out)?;
                number.put(out)
            }
            Item::Dropped(name) => {
                put_u8(out, 4)?;
                name.put(out)
            }
            Item::Kept(call, outcome) => {
                put_u8(out, 5)?;
                call.put(out)?;
                outcome.put(out)
            }
            Item::Node(record) => {
                put_u8(out, 6)?;
                record.put(out)
            }
        }
    }

    fn take(alloc: Global, from: &Text, at: usize) -> Result<Option<(Self, usize)>, Memory> {
        let Some((kind, start)) = take_u8(from, at) else {
            return Ok(None);
        };
        match kind {
            1 => {
                let Some((text, end)) = Bytes::take(alloc, from, start)? else {
                    return Ok(None);
                };
                Ok(Some((Item::Graph(text), end)))
            }
            2 => {
                let Some((value, end)) = take_content(alloc, from, start)? else {
                    return Ok(None);
                };
                Ok(Some((Item::Content(value), end)))
            }
            3 => {
                let Some((put, end)) = <(Bytes, u32)>::take(alloc, from, start)? else {
                    return Ok(None);
                };
                Ok(Some((Item::Put(put.0, put.1), end)))
            }
            4 => {
                let Some((name, end)) = Bytes::take(alloc, from, start)? else {
                    return Ok(None);
                };
                Ok(Some((Item::Dropped(name), end)))
            }
            5 => {
                let Some((kept, end)) = KeptFields::take(alloc, from, start)? else {
                    return Ok(None);
                };
                Ok(Some((Item::Kept(kept.0, kept.1), end)))
            }
            6 => {
                let Some((record, end)) = StoredRecord::take(alloc, from, start)? else {
                    return Ok(None);
                };
                Ok(Some((Item::Node(record), end)))
            }
            _ => Ok(None),
        }
    }

    ghost one = { one_item };
}
