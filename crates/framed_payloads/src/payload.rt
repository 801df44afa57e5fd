// A payload in the buffer from which it is written.
ghost use Rattle.std.specs.Prelude.{◌≡◌, ◌≤◌, ◌<◌, ◌^◌, length, drop, replicate, IfOk};
ghost use Rattle.framed_payloads.specs.Frames.{framed};

use byteorder::{BigEndian, ByteOrder};
use object_values::{Bytes, Memory};
use std::alloc::Global;
use std::marker::Model;

// What stands where the length will.
const BLANK_LENGTH: &[u8; 4] = b"\0\0\0\0";

/// A payload with its length before it and a closed gate after it, in one buffer. Contracts see the payload.
pub struct FramedPayload {
    bytes: Vec<u8>,
}

impl Drop for FramedPayload {
    fn drop(self) {
        let FramedPayload { bytes } = self;
        drop(bytes);
    }
}

impl Model for FramedPayload {
    ghost use Rattle.std.specs.Prelude.{◌≡◌, ◌<◌, ◌^◌, ℕ, List, length};
    ghost use Rattle.framed_payloads.specs.Frames.{framed, payload_in};

    ghost Value = { List ℕ };

    ghost view = { λ f. payload_in f.bytes.items };

    ghost invariant = { λ f. f.bytes.items ≡ framed (payload_in f.bytes.items) };
}

impl FramedPayload {
    /// The beginning of a buffer, to whose end a payload of about so many bytes is put, and which `finish` then makes whole.
    pub fn begin(alloc: Global, room: usize) -> Result<Bytes, Memory>
        ensures { IfOk result (λ bytes. bytes ≡ replicate 4 0) }
    {
        let mut bytes = Bytes::new(alloc);
        bytes.reserve_exact(room.saturating_add(5))?;
        bytes.extend_from_slice(BLANK_LENGTH)?;
        Ok(bytes)
    }

    /// The bytes after the first four, in the same buffer. A length that isn't below 2^32 is answered as want of memory.
    pub fn finish(mut bytes: Bytes) -> Result<FramedPayload, Memory>
        requires { 4 ≤ length bytes }
        ensures { IfOk result (λ payload. payload ≡ drop 4 bytes) }
    {
        let length = bytes.len() - 4;
        if length > u32::MAX as usize {
            return Err(Memory);
        }
        bytes.push(0)?;
        let mut bytes = bytes.into_vec()?;
        BigEndian::write_u32(bytes.as_mut_slice(), length as u32);
        Ok(FramedPayload { bytes })
    }

    /// A copy of a payload.
    pub fn of(alloc: Global, payload: &[u8]) -> Result<FramedPayload, Memory>
        ensures { IfOk result (λ made. made ≡ payload.now) }
    {
        let mut bytes = FramedPayload::begin(alloc, payload.len())?;
        bytes.extend_from_slice(payload)?;
        FramedPayload::finish(bytes)
    }

    /// The whole buffer: the length, the payload and the closed gate.
    pub fn as_slice(&self) -> &[u8]
        ensures { result.now ≡ framed self.now }
    {
        self.bytes.as_slice()
    }

    /// The payload alone.
    pub fn payload(&self) -> &[u8]
        ensures { result.now ≡ self.now }
    {
        &self.bytes.as_slice()[4..self.bytes.len() - 1]
    }

    /// How many bytes the payload has.
    pub fn len(&self) -> usize
        ensures { result ≡ length self.now }
    {
        self.bytes.len() - 5
    }
}
