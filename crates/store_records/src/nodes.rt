// Nodes and values.

use crate::places::take_u8;
use crate::recorded::Recorded;
use object_values::{Bytes, Memory, Node, ParamValue, Part, Seq, Step, Text, Value};
use odin_bytes::put_u8;
use std::alloc::Global;

impl Recorded for ParamValue {
    ghost use Rattle.meaning_records.specs.Records.{pair};
    ghost use Rattle.meaning_records.specs.FormLemmas.{one_pair};

    ghost form = { pair };

    fn put(&self, out: &mut Bytes) -> Result<(), Memory> {
        self.param.put(out)?;
        self.value.put(out)
    }

    fn take(alloc: Global, from: &Text, at: usize) -> Result<Option<(Self, usize)>, Memory> {
        let Some(((param, value), end)) = Recorded::take(alloc, from, at)? else {
            return Ok(None);
        };
        let pair = ParamValue { param, value };
        Ok(Some((pair, end)))
    }

    ghost one = { one_pair };
}

impl Recorded for Step {
    ghost use Rattle.meaning_records.specs.Records.{step};
    ghost use Rattle.meaning_records.specs.FormLemmas.{one_step};

    ghost form = { step };

    fn put(&self, out: &mut Bytes) -> Result<(), Memory> {
        match self {
            Step::Maker(maker) => {
                put_u8(out, 1)?;
                maker.put(out)
            }
            Step::Pick(key) => {
                put_u8(out, 2)?;
                key.put(out)
            }
        }
    }

    fn take(alloc: Global, from: &Text, at: usize) -> Result<Option<(Self, usize)>, Memory> {
        let Some((kind, start)) = take_u8(from, at) else {
            return Ok(None);
        };
        match kind {
            1 => {
                let Some((maker, end)) = u32::take(alloc, from, start)? else {
                    return Ok(None);
                };
                Ok(Some((Step::Maker(maker), end)))
            }
            2 => {
                let Some((key, end)) = Text::take(alloc, from, start)? else {
                    return Ok(None);
                };
                Ok(Some((Step::Pick(key), end)))
            }
            _ => Ok(None),
        }
    }

    ghost one = { one_step };
}

impl Recorded for Node {
    ghost use Rattle.meaning_records.specs.Records.{node};
    ghost use Rattle.meaning_records.specs.FormLemmas.{one_node};

    ghost form = { node };

    fn put(&self, out: &mut Bytes) -> Result<(), Memory> {
        self.source.put(out)?;
        self.params.put(out)?;
        self.steps.put(out)
    }

    fn take(alloc: Global, from: &Text, at: usize) -> Result<Option<(Self, usize)>, Memory> {
        let Some(((source, (params, steps)), end)) = Recorded::take(alloc, from, at)? else {
            return Ok(None);
        };
        let node = Node {
            source,
            params,
            steps,
        };
        Ok(Some((node, end)))
    }

    ghost one = { one_node };
}

impl Recorded for Part {
    ghost use Rattle.meaning_records.specs.Records.{part};
    ghost use Rattle.meaning_records.specs.FormLemmas.{one_part};

    ghost form = { part };

    fn put(&self, out: &mut Bytes) -> Result<(), Memory> {
        self.name.put(out)?;
        self.body.put(out)
    }

    fn take(alloc: Global, from: &Text, at: usize) -> Result<Option<(Self, usize)>, Memory> {
        let Some(((name, body), end)) = Recorded::take(alloc, from, at)? else {
            return Ok(None);
        };
        let part = Part { name, body };
        Ok(Some((part, end)))
    }

    ghost one = { one_part };
}

impl Recorded for Value {
    ghost use Rattle.meaning_records.specs.Records.{value};
    ghost use Rattle.meaning_records.specs.FormLemmas.{one_value};

    ghost form = { value };

    fn put(&self, out: &mut Bytes) -> Result<(), Memory> {
        match self {
            Value::Simple(text) => {
                put_u8(out, 1)?;
                text.put(out)
            }
            Value::List(nodes) => {
                put_u8(out, 2)?;
                nodes.put(out)
            }
            Value::Compound(parts) => {
                put_u8(out, 3)?;
                parts.put(out)
            }
        }
    }

    fn take(alloc: Global, from: &Text, at: usize) -> Result<Option<(Self, usize)>, Memory> {
        let Some((kind, start)) = take_u8(from, at) else {
            return Ok(None);
        };
        match kind {
            1 => {
                let Some((text, end)) = Text::take(alloc, from, start)? else {
                    return Ok(None);
                };
                Ok(Some((Value::Simple(text), end)))
            }
            2 => {
                let Some((nodes, end)) = Seq::<Node>::take(alloc, from, start)? else {
                    return Ok(None);
                };
                Ok(Some((Value::List(nodes), end)))
            }
            3 => {
                let Some((parts, end)) = Seq::<Part>::take(alloc, from, start)? else {
                    return Ok(None);
                };
                Ok(Some((Value::Compound(parts), end)))
            }
            _ => Ok(None),
        }
    }

    ghost one = { one_value };
}
