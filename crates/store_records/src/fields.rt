// Things that have no parts: numbers, bytes, texts and statuses.
ghost use Rattle.std.specs.Prelude.{◌≡◌, ◌≢◌, ◌++◌, ◌^◌, ◌<◌, length, OnOk, IfSome, IfNone};
ghost use Rattle.object_values.specs.declared.messages.Status.{Status};
ghost use Rattle.odin_bytes.specs.Fields.{bytes_field};
ghost use Rattle.meaning_records.specs.Records.{status_number};

use crate::places::{take_body, take_u8, take_u32};
use crate::recorded::Recorded;
use object_values::{Bytes, Memory, Status, Text};
use odin_bytes::{put_bytes, put_u8, put_u32};
use std::alloc::Global;

impl Recorded for u32 {
    ghost use Rattle.meaning_records.specs.Forms.{number};
    ghost use Rattle.meaning_records.specs.FormLemmas.{one_number};

    ghost form = { number };

    fn put(&self, out: &mut Bytes) -> Result<(), Memory> {
        put_u32(out, *self)
    }

    fn take(_alloc: Global, from: &Text, at: usize) -> Result<Option<(Self, usize)>, Memory> {
        Ok(take_u32(from, at))
    }

    ghost one = { one_number };
}

impl Recorded for Bytes {
    ghost use Rattle.meaning_records.specs.Forms.{bytes};
    ghost use Rattle.meaning_records.specs.FormLemmas.{one_bytes};

    ghost form = { bytes };

    fn put(&self, out: &mut Bytes) -> Result<(), Memory> {
        put_field(self.as_slice(), out)
    }

    fn take(alloc: Global, from: &Text, at: usize) -> Result<Option<(Self, usize)>, Memory> {
        let Some((start, end)) = take_body(from, at) else {
            return Ok(None);
        };
        Ok(Some((Bytes::from_slice(alloc, &from.as_slice()[start..end])?, end)))
    }

    ghost one = { one_bytes };
}

impl Recorded for Text {
    ghost use Rattle.meaning_records.specs.Forms.{bytes};
    ghost use Rattle.meaning_records.specs.FormLemmas.{one_bytes};

    ghost form = { bytes };

    fn put(&self, out: &mut Bytes) -> Result<(), Memory> {
        put_field(self.as_slice(), out)
    }

    fn take(_alloc: Global, from: &Text, at: usize) -> Result<Option<(Self, usize)>, Memory> {
        let Some((start, end)) = take_body(from, at) else {
            return Ok(None);
        };
        Ok(Some((from.part(start, end)?, end)))
    }

    ghost one = { one_bytes };
}

impl Recorded for Status {
    ghost use Rattle.meaning_records.specs.Records.{status};
    ghost use Rattle.meaning_records.specs.FormLemmas.{one_status};

    ghost form = { status };

    fn put(&self, out: &mut Bytes) -> Result<(), Memory> {
        put_u8(out, byte_of(*self))
    }

    fn take(_alloc: Global, from: &Text, at: usize) -> Result<Option<(Self, usize)>, Memory> {
        let Some((byte, end)) = take_u8(from, at) else {
            return Ok(None);
        };
        let Some(status) = status_of(byte) else {
            return Ok(None);
        };
        Ok(Some((status, end)))
    }

    ghost one = { one_status };
}

// The length of the body, and the body.
fn put_field(body: &[u8], out: &mut Bytes) -> Result<(), Memory>
    ensures ok { OnOk result (out.new ≡ out.old ++ bytes_field body.now) }
    ensures fits { OnOk result (length body.now < 2 ^ 32) }
{
    if body.len() > u32::MAX as usize {
        return Err(Memory);
    }
    put_bytes(out, body)
}

fn byte_of(status: Status) -> u8
    ensures { result ≡ status_number status }
{
    match status {
        Status::Ok => 0,
        Status::Warning => 1,
        Status::Error => 2,
        Status::Abort => 3,
    }
}

fn status_of(byte: u8) -> Option<Status>
    ensures some { IfSome result (λ status. byte ≡ status_number status) }
    ensures none { IfNone result ((status : Status) → byte ≢ status_number status) }
{
    match byte {
        0 => Some(Status::Ok),
        1 => Some(Status::Warning),
        2 => Some(Status::Error),
        3 => Some(Status::Abort),
        _ => None,
    }
}
