// Records of nodes by the numbers of their contents.

use crate::recorded::Recorded;
use object_values::{Bytes, Memory, Message, Node, Seq, Status, StoredDep, StoredRecord, Text};
use std::alloc::Global;

impl Recorded for Message {
    ghost use Rattle.meaning_records.specs.Records.{message};
    ghost use Rattle.meaning_records.specs.FormLemmas.{one_message};

    ghost form = { message };

    fn put(&self, out: &mut Bytes) -> Result<(), Memory> {
        self.label.put(out)?;
        self.level.put(out)?;
        self.text.put(out)
    }

    fn take(alloc: Global, from: &Text, at: usize) -> Result<Option<(Self, usize)>, Memory> {
        let Some(((label, (level, text)), end)) = Recorded::take(alloc, from, at)? else {
            return Ok(None);
        };
        let message = Message { label, level, text };
        Ok(Some((message, end)))
    }

    ghost one = { one_message };
}

impl Recorded for StoredDep {
    ghost use Rattle.meaning_records.specs.Records.{dep};
    ghost use Rattle.meaning_records.specs.FormLemmas.{one_dep};

    ghost form = { dep };

    fn put(&self, out: &mut Bytes) -> Result<(), Memory> {
        self.node.put(out)?;
        self.content.put(out)
    }

    fn take(alloc: Global, from: &Text, at: usize) -> Result<Option<(Self, usize)>, Memory> {
        let Some(((node, content), end)) = Recorded::take(alloc, from, at)? else {
            return Ok(None);
        };
        let dep = StoredDep { node, content };
        Ok(Some((dep, end)))
    }

    ghost one = { one_dep };
}

impl Recorded for StoredRecord {
    ghost use Rattle.meaning_records.specs.Records.{node_record};
    ghost use Rattle.meaning_records.specs.FormLemmas.{one_node_record};

    ghost form = { node_record };

    fn put(&self, out: &mut Bytes) -> Result<(), Memory> {
        self.node.put(out)?;
        self.deps.put(out)?;
        self.reached.put(out)?;
        self.value.put(out)?;
        self.own_status.put(out)?;
        self.own_messages.put(out)?;
        self.status.put(out)?;
        self.messages.put(out)?;
        self.height.put(out)
    }

    fn take(alloc: Global, from: &Text, at: usize) -> Result<Option<(Self, usize)>, Memory> {
        let Some(
            (
                (
                    node,
                    (
                        deps,
                        (
                            reached,
                            (value, (own_status, (own_messages, (status, (messages, height))))),
                        ),
                    ),
                ),
                end,
            ),
        ) = Recorded::take(alloc, from, at)?
        else {
            return Ok(None);
        };
        let record = StoredRecord {
            node,
            deps,
            reached,
            value,
            own_status,
            own_messages,
            status,
            messages,
            height,
        };
        Ok(Some((record, end)))
    }

    ghost one = { one_node_record };
}
