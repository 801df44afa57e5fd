// Batches that are prepared, committed, and read by other tables.
use kept_tables::{Kept, Loaded};
use object_values::{
    Bytes, Call, CallPart, Copied, Memory, Outcome, OwnLine, Part, Seq, Status, Text,
};
use odin_bytes::Name;
use std::alloc::Global;
use std::test::Fail;

// The batch that gives `a.c` an empty text, over a store that has no contents.
const FIRST_PUT: &[u8] = &[
    2, 0, 0, 0, 5, 1, 0, 0, 0, 0, 3, 0, 0, 0, 3, 0x61, 0x2e, 0x63, 0, 0, 0, 0,
];

fn text(alloc: Global, bytes: &[u8]) -> Result<Text, Memory> {
    Text::of(Bytes::from_slice(alloc, bytes)?)
}

// The batch that puts a text under a name, which is then committed.
fn put(alloc: Global, kept: &mut Kept, name: &[u8], bytes: &[u8]) -> Result<Bytes, Memory> {
    let Ok(name) = Name::read(alloc, name) else {
        return Err(Memory);
    };
    let body = text(alloc, bytes)?;
    if body.len() > 100 {
        return Err(Memory);
    }
    let prepared = kept.prepare_text(alloc, &name, &body)?;
    let payload = Bytes::from_slice(alloc, prepared.payload())?;
    kept.commit(prepared);
    Ok(payload)
}

// How many items of a payload are read, and whether they reach its end.
fn load_all(alloc: Global, kept: &mut Kept, payload: &Text) -> Result<(u32, bool), Memory> {
    let mut at = 0;
    let mut items: u32 = 0;
    for _ in 0..payload.len() {
        if at == payload.len() {
            return Ok((items, true));
        }
        let Some((_, end)) = kept.load_item(alloc, payload, at)? else {
            return Ok((items, false));
        };
        at = end;
        items = items.wrapping_add(1);
    }
    Ok((items, at == payload.len()))
}

// A call of `cc` with one input and one output.
fn call_of(alloc: Global, body: &[u8]) -> Result<Call, Memory> {
    let mut parts = Seq::new(alloc);
    parts.push(CallPart {
        slot: 1,
        label: Bytes::from_slice(alloc, b"a.c")?,
        body: Some(text(alloc, body)?),
    })?;
    let mut outs = Seq::new(alloc);
    outs.push(Bytes::from_slice(alloc, b"o")?)?;
    Ok(Call {
        tool: Bytes::from_slice(alloc, b"cc")?,
        version: Bytes::from_slice(alloc, b"1")?,
        words: Seq::new(alloc),
        params: Seq::new(alloc),
        parts,
        outs,
    })
}

fn outcome_of(alloc: Global, body: &[u8]) -> Result<Outcome, Memory> {
    let mut lines = Seq::new(alloc);
    lines.push(OwnLine {
        level: Status::Warning,
        text: text(alloc, b"careful")?,
    })?;
    let mut outputs = Seq::new(alloc);
    outputs.push(Part {
        name: Bytes::from_slice(alloc, b"o")?,
        body: text(alloc, body)?,
    })?;
    Ok(Outcome {
        status: Status::Warning,
        lines,
        outputs,
    })
}

#[test]
fn a_first_put_is_a_content_and_its_name(rt: HostRuntime) -> Result<(), Fail> {
    let mut kept = Kept::new(rt.alloc());
    let payload = put(rt.alloc(), &mut kept, b"a.c", b"")?;
    assert!(rt; payload.as_slice() == FIRST_PUT);
    let again = put(rt.alloc(), &mut kept, b"b.c", b"")?;
    assert!(rt; again.len() == 12);
    Ok(())
}

#[test]
fn a_put_is_read_with_its_text(rt: HostRuntime) -> Result<(), Fail> {
    let payload = text(rt.alloc(), FIRST_PUT)?;
    let mut kept = Kept::new(rt.alloc());
    let first = kept.load_item(rt.alloc(), &payload, 0)?;
    assert!(rt; matches!(first, Some((Loaded::Content, 10))));
    let second = kept.load_item(rt.alloc(), &payload, 10)?;
    let is_put = match &second {
        Some((Loaded::Put(name, text), 22)) => name.as_slice() == b"a.c".as_slice()
            && text.is_empty(),
        _ => false,
    };
    assert!(rt; is_put);
    let mut other = Kept::new(rt.alloc());
    let ahead = other.load_item(rt.alloc(), &payload, 10)?;
    assert!(rt; ahead.is_none());
    Ok(())
}

#[test]
fn a_call_is_kept_once_and_read_by_others(rt: HostRuntime) -> Result<(), Fail> {
    let alloc = rt.alloc();
    let mut kept = Kept::new(alloc);
    let call = call_of(alloc, b"int a;")?;
    let outcome = outcome_of(alloc, b"int a;")?;
    assert!(rt; kept.may_keep(&call, &outcome));
    let prepared = kept.prepare_call(alloc, &call, &outcome)?;
    let payload = text(alloc, prepared.payload())?;
    let before = kept.outcome(alloc, &call)?;
    assert!(rt; before.is_none() && kept.calls() == 0);
    kept.commit(prepared);
    let after = kept.outcome(alloc, &call)?;
    assert!(rt; after == Some(outcome.copy(alloc)?) && kept.calls() == 1);
    let mut other = Kept::new(alloc);
    let read = load_all(alloc, &mut other, &payload)?;
    assert!(rt; read == (2, true));
    let found = other.call_at(alloc, 0)?;
    assert!(rt; found.is_some_and(|found| found.call == call && found.outcome == outcome));
    let behind = (other.call_at(alloc, 1)?, other.call_at(alloc, u64::MAX)?);
    assert!(rt; behind.0.is_none() && behind.1.is_none());
    let again = load_all(alloc, &mut other, &payload)?;
    assert!(rt; again == (1, false));
    Ok(())
}

// Two inputs whose quick hashes are 0: their last eight bytes are the factor of that hash.
const COLLIDING: [&[u8; 16]; 2] = [
    b"int a;\n\n\x15\x7c\x4a\x7f\xb9\x79\x37\x9e",
    b"int b;\n\n\x15\x7c\x4a\x7f\xb9\x79\x37\x9e",
];

// Keeps a call with one text as its input and its output, and says what is kept of it then.
fn keep(alloc: Global, kept: &mut Kept, body: &[u8]) -> Result<Option<Outcome>, Memory> {
    let call = call_of(alloc, body)?;
    let outcome = outcome_of(alloc, body)?;
    if !kept.may_keep(&call, &outcome) {
        return Ok(None);
    }
    let prepared = kept.prepare_call(alloc, &call, &outcome)?;
    kept.commit(prepared);
    kept.outcome(alloc, &call)
}

#[test]
fn calls_with_texts_that_collide_are_kept_apart(rt: HostRuntime) -> Result<(), Fail> {
    let alloc = rt.alloc();
    let mut kept = Kept::new(alloc);
    for body in COLLIDING {
        let found = keep(alloc, &mut kept, body)?;
        assert!(rt; found == Some(outcome_of(alloc, body)?));
    }
    assert!(rt; kept.calls() == 2 && kept.contents() == 2);
    let again = keep(alloc, &mut kept, COLLIDING[0])?;
    assert!(rt; again.is_none());
    Ok(())
}
