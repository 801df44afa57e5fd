// Calls and outcomes as tables give them.
use object_values::{
    Bytes, Call, CallPart, Memory, Outcome, OwnLine, ParamValue, Part, Seq, Status, Text,
};
use std::alloc::Global;

/// A call with its outcome.
pub(super) struct Given {
    pub(super) tool: &'static [u8],
    pub(super) version: &'static [u8],
    pub(super) words: &'static [&'static [u8]],
    pub(super) params: &'static [(&'static [u8], &'static [u8])],
    pub(super) parts: &'static [(u32, &'static [u8], Option<&'static [u8]>)],
    pub(super) outs: &'static [&'static [u8]],
    pub(super) status: Status,
    pub(super) lines: &'static [(Status, &'static [u8])],
    pub(super) outputs: &'static [(&'static [u8], &'static [u8])],
}

pub(super) fn text_of(alloc: Global, text: &[u8]) -> Result<Text, Memory> {
    Text::of(Bytes::from_slice(alloc, text)?)
}

fn words_of(alloc: Global, words: &[&[u8]]) -> Result<Seq<Bytes>, Memory> {
    let mut made = Seq::new(alloc);
    for word in words {
        made.push(Bytes::from_slice(alloc, word)?)?;
    }
    Ok(made)
}

fn param_of(alloc: Global, param: &[u8], value: &[u8]) -> Result<ParamValue, Memory> {
    let param = Bytes::from_slice(alloc, param)?;
    let value = Bytes::from_slice(alloc, value)?;
    Ok(ParamValue { param, value })
}

fn params_of(alloc: Global, params: &[(&[u8], &[u8])]) -> Result<Seq<ParamValue>, Memory> {
    let mut made = Seq::new(alloc);
    for (param, value) in params {
        made.push(param_of(alloc, param, value)?)?;
    }
    Ok(made)
}

fn part_of(
    alloc: Global,
    slot: u32,
    label: &[u8],
    body: Option<&[u8]>,
) -> Result<CallPart, Memory> {
    let label = Bytes::from_slice(alloc, label)?;
    let body = match body {
        Some(body) => Some(text_of(alloc, body)?),
        None => None,
    };
    Ok(CallPart { slot, label, body })
}

fn parts_of(alloc: Global, parts: &[(u32, &[u8], Option<&[u8]>)]) -> Result<Seq<CallPart>, Memory> {
    let mut made = Seq::new(alloc);
    for (slot, label, body) in parts {
        made.push(part_of(alloc, *slot, label, *body)?)?;
    }
    Ok(made)
}

fn lines_of(alloc: Global, lines: &[(Status, &[u8])]) -> Result<Seq<OwnLine>, Memory> {
    let mut made = Seq::new(alloc);
    for (level, text) in lines {
        let text = text_of(alloc, text)?;
        made.push(OwnLine {
            level: *level,
            text,
        })?;
    }
    Ok(made)
}

fn output_of(alloc: Global, name: &[u8], body: &[u8]) -> Result<Part, Memory> {
    let name = Bytes::from_slice(alloc, name)?;
    let body = text_of(alloc, body)?;
    Ok(Part { name, body })
}

fn outputs_of(alloc: Global, outputs: &[(&[u8], &[u8])]) -> Result<Seq<Part>, Memory> {
    let mut made = Seq::new(alloc);
    for (name, body) in outputs {
        made.push(output_of(alloc, name, body)?)?;
    }
    Ok(made)
}

pub(super) fn call_of(alloc: Global, given: &Given) -> Result<Call, Memory> {
    let tool = Bytes::from_slice(alloc, given.tool)?;
    let version = Bytes::from_slice(alloc, given.version)?;
    let words = words_of(alloc, given.words)?;
    let params = params_of(alloc, given.params)?;
    let parts = parts_of(alloc, given.parts)?;
    let outs = words_of(alloc, given.outs)?;
    Ok(Call {
        tool,
        version,
        words,
        params,
        parts,
        outs,
    })
}

pub(super) fn outcome_of(alloc: Global, given: &Given) -> Result<Outcome, Memory> {
    let lines = lines_of(alloc, given.lines)?;
    let outputs = outputs_of(alloc, given.outputs)?;
    Ok(Outcome {
        status: given.status,
        lines,
        outputs,
    })
}
