// Lists of many elements.
use super::graphs::{JOINED_TEXTS, KITS};
use super::scripts::Script;
use object_values::{Bytes, Memory};
use std::alloc::Global;
use std::test::Fail;

// So many times this text.
fn repeated(alloc: Global, text: &[u8], count: u32) -> Result<Bytes, Memory> {
    let mut all = Bytes::new(alloc);
    for _ in 0..count {
        all.extend_from_slice(text)?;
    }
    Ok(all)
}

// A pack of what is linked of ten thousand objects, and of their list.
fn packed(alloc: Global) -> Result<Script, Memory> {
    let mut script = Script::new(alloc);
    let list = repeated(alloc, b"a.c\n", 10_000)?;
    let linked = repeated(alloc, b"x=1\n", 10_000)?;
    script.put(b"m.sm", list.as_slice())?;
    script.put(b"a.c", b"x=1\n")?;
    script.ask(b"m.sm:kit")?;
    script.reply(b"object ok compound 2\nprog 40000\n")?;
    script.reply(linked.as_slice())?;
    script.reply(b"\nsrc 40000\n")?;
    script.reply(list.as_slice())?;
    script.reply(b"\nmessages 0\n")?;
    Ok(script)
}

#[test]
fn packs_what_is_made_of_a_long_list(rt: HostRuntime) -> Result<(), Fail> {
    let script = packed(rt.alloc())?;
    assert!(rt; script.goes(rt.alloc(), KITS, 3)?);
    Ok(())
}

// One line more than a list may have.
fn too_long(alloc: Global) -> Result<Script, Memory> {
    let mut script = Script::new(alloc);
    let list = repeated(alloc, b"b.t\n", 10_001)?;
    script.put(b"a.t", list.as_slice())?;
    script.ask(b"a.t:l")?;
    script.reply(b"object abort none 0\nmessages 1\nabort a.t:l too many references\n")?;
    Ok(script)
}

#[test]
fn refuses_a_list_that_is_too_long(rt: HostRuntime) -> Result<(), Fail> {
    let script = too_long(rt.alloc())?;
    assert!(rt; script.goes(rt.alloc(), JOINED_TEXTS, 0)?);
    Ok(())
}
