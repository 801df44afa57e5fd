// Sources, by the order of their names and by their newest texts.
use object_values::{Bytes, Memory, Sources, Text};
use std::alloc::Global;
use std::test::Fail;

// Puts a text under a name, and gives the text from before.
fn put(
    alloc: Global,
    sources: &mut Sources,
    name: &[u8],
    text: &[u8],
) -> Result<Option<Text>, Memory> {
    sources.reserve()?;
    let name = Bytes::from_slice(alloc, name)?;
    let text = Text::of(Bytes::from_slice(alloc, text)?)?;
    Ok(sources.put(name, text))
}

// Puts another text under a name that has one, and gives the text from before.
fn put_again(
    alloc: Global,
    sources: &mut Sources,
    name: &[u8],
    text: &[u8],
) -> Result<Option<Text>, Memory> {
    if sources.get(name).is_none() {
        return Ok(None);
    }
    let name = Bytes::from_slice(alloc, name)?;
    let text = Text::of(Bytes::from_slice(alloc, text)?)?;
    Ok(sources.put(name, text))
}

// Whether there is a text, and it is this one.
fn is_text(found: Option<Text>, wanted: &[u8]) -> bool {
    found.is_some_and(|text| text.as_slice() == wanted)
}

// Whether there is a pair, whose name and text are both this.
fn is_pair(found: Option<(&Bytes, &Text)>, wanted: &[u8]) -> bool {
    found.is_some_and(|(name, text)| name.as_slice() == wanted && text.as_slice() == wanted)
}

// Names as they are put in, and as they come.
const PUT: &[&[u8]] = &[b"b.c", b"b", b"a.c", b"b."];

const SORTED: &[&[u8]] = &[b"a.c", b"b", b"b.", b"b.c"];

// Whether nothing stood under the name, under which the name itself is put.
fn is_new(alloc: Global, sources: &mut Sources, name: &[u8]) -> Result<bool, Memory> {
    let before = put(alloc, sources, name, name)?;
    Ok(before.is_none())
}

// Whether each name is new when it is put.
fn put_names(alloc: Global, sources: &mut Sources) -> Result<bool, Memory> {
    for name in PUT {
        if !is_new(alloc, sources, name)? {
            return Ok(false);
        }
    }
    Ok(true)
}

// Whether the pairs come in the order of their names, with none after them.
fn are_sorted(sources: &Sources) -> bool {
    for (place, wanted) in SORTED.iter().enumerate() {
        if !is_pair(sources.at(place), wanted) {
            return false;
        }
    }
    sources.at(4).is_none()
}

#[test]
fn texts_come_in_the_order_of_their_names(rt: HostRuntime) -> Result<(), Fail> {
    let mut sources = Sources::new(rt.alloc());
    assert!(rt; put_names(rt.alloc(), &mut sources)?);
    assert!(rt; are_sorted(&sources));
    Ok(())
}

// As many names as fill several blocks, and more.
const MANY: u16 = 1000;

// Puts many names, the last one first, and says whether each was new.
fn put_falling(alloc: Global, sources: &mut Sources) -> Result<bool, Memory> {
    for number in 0..MANY {
        let name = (MANY - 1 - number).to_be_bytes();
        if !is_new(alloc, sources, &name)? {
            return Ok(false);
        }
    }
    Ok(true)
}

// Whether all of them come in their order, with none after them.
fn are_many(sources: &Sources) -> bool {
    for number in 0..MANY {
        if !is_pair(sources.at(number as usize), &number.to_be_bytes()) {
            return false;
        }
    }
    sources.len() == MANY as usize
}

#[test]
fn names_in_falling_order_come_in_rising_order(rt: HostRuntime) -> Result<(), Fail> {
    let mut sources = Sources::new(rt.alloc());
    assert!(rt; put_falling(rt.alloc(), &mut sources)?);
    assert!(rt; are_many(&sources));
    Ok(())
}

// Whether an old text is given back where a newer one is put in its place.
fn is_replaced(alloc: Global, sources: &mut Sources) -> Result<bool, Memory> {
    let before = put(alloc, sources, b"a.c", b"old")?;
    Ok(before.is_none() && is_text(put_again(alloc, sources, b"a.c", b"new")?, b"old"))
}

// Whether the newest text is taken out, and stays in the copy.
fn is_taken(sources: &mut Sources, copy: &Sources) -> bool {
    is_text(sources.remove(b"a.c"), b"new")
        && sources.len() == 0
        && copy.len() == 1
        && sources.get(b"a.c").is_none()
        && copy.get(b"a").is_none()
}

#[test]
fn a_name_keeps_its_newest_text(rt: HostRuntime) -> Result<(), Fail> {
    let mut sources = Sources::new(rt.alloc());
    assert!(rt; is_replaced(rt.alloc(), &mut sources)?);
    let copy = sources.copy(rt.alloc())?;
    assert!(rt; is_taken(&mut sources, &copy));
    Ok(())
}
