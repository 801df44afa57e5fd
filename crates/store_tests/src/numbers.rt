// Values by number: those of contents that are read, and of texts that a batch brings.
use kept_tables::Kept;
use object_values::{Bytes, Memory, Text, Value};
use odin_bytes::Name;
use std::alloc::Global;
use std::test::Fail;
use store_records::{Item, Recorded};

// Contents as a store file has them: the text without bytes, the list without nodes, the compound without parts,
const TEXT: &[u8] = b"\x02\0\0\0\x05\x01\0\0\0\0";

const LIST: &[u8] = b"\x02\0\0\0\x05\x02\0\0\0\0";

const COMPOUND: &[u8] = b"\x02\0\0\0\x05\x03\0\0\0\0";

// the list of the source `m`, the part `p` with the text `xy`, and the text `xy`.
const SOURCE: &[u8] = b"\x02\0\0\0\x12\x02\0\0\0\x01\0\0\0\x01m\0\0\0\0\0\0\0\0";

const PART: &[u8] = b"\x02\0\0\0\x10\x03\0\0\0\x01\0\0\0\x01p\0\0\0\x02xy";

const XY: &[u8] = b"\x02\0\0\0\x07\x01\0\0\0\x02xy";

// Contents in their order, each with the number of its value.
const CONTENTS: [(&[u8], u64); 9] = [
    (XY, 0),
    (LIST, 1),
    (PART, 2),
    (XY, 0),
    (TEXT, 4),
    (PART, 2),
    (LIST, 1),
    (SOURCE, 7),
    (TEXT, 4),
];

fn text_of(alloc: Global, bytes: &[u8]) -> Result<Text, Memory> {
    Text::of(Bytes::from_slice(alloc, bytes)?)
}

// The value of a content.
fn value_of(alloc: Global, content: &[u8]) -> Result<Option<Value>, Memory> {
    match Item::take(alloc, &text_of(alloc, content)?, 0)? {
        Some((Item::Content(value), _)) => Ok(Some(value)),
        _ => Ok(None),
    }
}

// Reads the contents, one after another, and says whether each was read.
fn are_read(alloc: Global, kept: &mut Kept) -> Result<bool, Memory> {
    for (content, _) in &CONTENTS {
        if kept
            .load_item(alloc, &text_of(alloc, content)?, 0)?
            .is_none()
        {
            return Ok(false);
        }
    }
    Ok(true)
}

// The value of a number, where there is one.
fn value_at(alloc: Global, kept: &Kept, id: u64) -> Result<Option<Value>, Memory> {
    if id >= kept.contents() {
        return Ok(None);
    }
    let value = kept.value(alloc, id)?;
    let looked = kept.looks().value(alloc, id)?;
    Ok(if looked == value { Some(value) } else { None })
}

// The number of the value of a content.
fn number_of(alloc: Global, kept: &Kept, content: &[u8]) -> Result<Option<u64>, Memory> {
    let Some(value) = value_of(alloc, content)? else {
        return Ok(None);
    };
    let number = kept.id_of(&value)?;
    let looked = kept.looks().id_of(&value)?;
    Ok(if looked == number { number } else { None })
}

fn simple(alloc: Global, bytes: &[u8]) -> Result<Value, Memory> {
    Ok(Value::Simple(Text::of(Bytes::from_slice(alloc, bytes)?)?))
}

// Gives the source `a.c` a text, and says the number of the text before the batch is taken in and after.
fn put(alloc: Global, kept: &mut Kept, bytes: &[u8]) -> Result<(Option<u64>, Option<u64>), Memory> {
    let value = simple(alloc, bytes)?;
    let Ok(name) = Name::read(alloc, b"a.c") else {
        return Err(Memory);
    };
    let text = Text::of(Bytes::from_slice(alloc, bytes)?)?;
    if text.len() > 100 {
        return Err(Memory);
    }
    let prepared = kept.prepare_text(alloc, &name, &text)?;
    let before = kept.id_of(&value)?;
    kept.commit(prepared);
    Ok((before, kept.id_of(&value)?))
}

#[test]
fn equal_contents_have_the_number_of_the_first(rt: HostRuntime) -> Result<(), Fail> {
    let alloc = rt.alloc();
    let mut kept = Kept::new(alloc);
    assert!(rt; are_read(alloc, &mut kept) == Ok(true) && kept.contents() == 9);
    for (place, (content, number)) in CONTENTS.iter().enumerate() {
        assert!(rt;
            number_of(alloc, &kept, content) == Ok(Some(*number)),
            "{place}"
        );
        let value = value_of(alloc, content)?;
        assert!(rt;
            value.is_some() && value_at(alloc, &kept, place as u64) == Ok(value),
            "{place}"
        );
    }
    assert!(rt; value_at(alloc, &kept, 9) == Ok(None));
    Ok(())
}

#[test]
fn a_value_that_is_no_content_has_no_number(rt: HostRuntime) {
    let alloc = rt.alloc();
    let mut kept = Kept::new(alloc);
    for content in [TEXT, LIST, COMPOUND, SOURCE, PART, XY] {
        assert!(rt; number_of(alloc, &kept, content) == Ok(None));
    }
    assert!(rt; are_read(alloc, &mut kept) == Ok(true));
    assert!(rt; number_of(alloc, &kept, COMPOUND) == Ok(None));
}

#[test]
fn a_text_is_numbered_by_the_batch_that_is_taken_in(rt: HostRuntime) -> Result<(), Fail> {
    let alloc = rt.alloc();
    let mut kept = Kept::new(alloc);
    assert!(rt; put(alloc, &mut kept, b"int a;") == Ok((None, Some(0))));
    assert!(rt; put(alloc, &mut kept, b"int b;") == Ok((None, Some(1))));
    assert!(rt; put(alloc, &mut kept, b"int a;") == Ok((Some(0), Some(0))));
    assert!(rt; kept.contents() == 2);
    Ok(())
}
