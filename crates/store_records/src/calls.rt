// Calls and outcomes by the numbers of their contents.

use crate::recorded::Recorded;
use object_values::{
    Bytes, Memory, OwnLine, ParamValue, Seq, Status, StoredCall, StoredOutcome, StoredOutput,
    StoredPart, Text,
};
use std::alloc::Global;

impl Recorded for StoredPart {
    ghost use Rattle.meaning_records.specs.Records.{stored_part};
    ghost use Rattle.meaning_records.specs.FormLemmas.{one_stored_part};

    ghost form = { stored_part };

    fn put(&self, out: &mut Bytes) -> Result<(), Memory> {
        self.slot.put(out)?;
        self.label.put(out)?;
        self.content.put(out)
    }

    fn take(alloc: Global, from: &Text, at: usize) -> Result<Option<(Self, usize)>, Memory> {
        let Some(((slot, (label, content)), end)) = Recorded::take(alloc, from, at)? else {
            return Ok(None);
        };
        let part = StoredPart {
            slot,
            label,
            content,
        };
        Ok(Some((part, end)))
    }

    ghost one = { one_stored_part };
}

impl Recorded for StoredCall {
    ghost use Rattle.meaning_records.specs.Records.{call};
    ghost use Rattle.meaning_records.specs.FormLemmas.{one_call};

    ghost form = { call };

    fn put(&self, out: &mut Bytes) -> Result<(), Memory> {
        self.tool.put(out)?;
        self.version.put(out)?;
        self.words.put(out)?;
        self.params.put(out)?;
        self.parts.put(out)?;
        self.outs.put(out)
    }

    fn take(alloc: Global, from: &Text, at: usize) -> Result<Option<(Self, usize)>, Memory> {
        let Some(((tool, (version, (words, (params, (parts, outs))))), end)) = Recorded::take(
            alloc, from, at,
        )?
        else {
            return Ok(None);
        };
        let call = StoredCall {
            tool,
            version,
            words,
            params,
            parts,
            outs,
        };
        Ok(Some((call, end)))
    }

    ghost one = { one_call };
}

impl Recorded for OwnLine {
    ghost use Rattle.meaning_records.specs.Records.{line};
    ghost use Rattle.meaning_records.specs.FormLemmas.{one_line};

    ghost form = { line };

    fn put(&self, out: &mut Bytes) -> Result<(), Memory> {
        self.level.put(out)?;
        self.text.put(out)
    }

    fn take(alloc: Global, from: &Text, at: usize) -> Result<Option<(Self, usize)>, Memory> {
        let Some(((level, text), end)) = Recorded::take(alloc, from, at)? else {
            return Ok(None);
        };
        let line = OwnLine { level, text };
        Ok(Some((line, end)))
    }

    ghost one = { one_line };
}

impl Recorded for StoredOutput {
    ghost use Rattle.meaning_records.specs.Records.{output};
    ghost use Rattle.meaning_records.specs.FormLemmas.{one_output};

    ghost form = { output };

    fn put(&self, out: &mut Bytes) -> Result<(), Memory> {
        self.name.put(out)?;
        self.content.put(out)
    }

    fn take(alloc: Global, from: &Text, at: usize) -> Result<Option<(Self, usize)>, Memory> {
        let Some(((name, content), end)) = Recorded::take(alloc, from, at)? else {
            return Ok(None);
        };
        let output = StoredOutput { name, content };
        Ok(Some((output, end)))
    }

    ghost one = { one_output };
}

impl Recorded for StoredOutcome {
    ghost use Rattle.meaning_records.specs.Records.{outcome};
    ghost use Rattle.meaning_records.specs.FormLemmas.{one_outcome};

    ghost form = { outcome };

    fn put(&self, out: &mut Bytes) -> Result<(), Memory> {
        self.status.put(out)?;
        self.lines.put(out)?;
        self.outputs.put(out)
    }

    fn take(alloc: Global, from: &Text, at: usize) -> Result<Option<(Self, usize)>, Memory> {
        let Some(((status, (lines, outputs)), end)) = Recorded::take(alloc, from, at)? else {
            return Ok(None);
        };
        let outcome = StoredOutcome {
            status,
            lines,
            outputs,
        };
        Ok(Some((outcome, end)))
    }

    ghost one = { one_outcome };
}
