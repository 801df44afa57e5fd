// A batch that is ready to be written and taken in.
ghost use Rattle.std.specs.Prelude.{◌≡◌};

use framed_payloads::FramedPayload;
use kept_contents::{Content, HeldCall};
use object_values::{NodeRecord, Outcome};
use std::marker::Model;

/// The bytes of a batch, with all that its taking in wants of memory.
pub struct Prepared {
    pub(crate) payload: FramedPayload,
    // the contents that are added, the last one first
    pub(crate) added: Vec<Content>,
    pub(crate) call: Option<(HeldCall, Outcome)>,
    // the records that are noted, one after another
    pub(crate) notes: Vec<NodeRecord>,
}

impl Drop for Prepared {
    fn drop(self) {
        let Prepared {
            payload,
            added,
            call,
            notes,
        } = self;
        drop(payload);
        drop(added);
        drop(call);
        drop(notes);
    }
}

impl Model for Prepared {
    ghost use Rattle.kept_tables.specs.Holdings.{Batch};

    ghost Value = { Batch };

    ghost view = { λ p. record {
      payload = p.payload;
      added = p.added.items;
      call = p.call;
      notes = p.notes.items;
    } };
}

impl Prepared {
    /// The bytes of the batch.
    pub fn payload(&self) -> &[u8]
        ensures { result.now ≡ self.now.payload }
    {
        self.payload.payload()
    }

    /// The bytes of the batch, in the buffer from which they are written.
    pub fn framed(&self) -> &FramedPayload
        ensures { result.now ≡ self.now.payload }
    {
        &self.payload
    }

    // The contents, the last one first, the call, and the records of nodes.
    pub(crate) fn into_parts(self) -> (Vec<Content>, Option<(HeldCall, Outcome)>, Vec<NodeRecord>)
        ensures added { result.0.items ≡ self.added }
        ensures call { result.1 ≡ self.call }
        ensures notes { result.2.items ≡ self.notes }
    {
        let Prepared {
            payload,
            added,
            call,
            notes,
        } = self;
        drop(payload);
        (added, call, notes)
    }
}
