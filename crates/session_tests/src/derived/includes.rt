// Headers that include one another, in a long chain and in a long loop.
use super::graphs::C_UNITS;
use super::scripts::{Script, numbered};
use object_values::{Bytes, Memory};
use std::alloc::Global;
use std::test::Fail;

// A header that includes the next one and holds a line of its own.
fn put_header(alloc: Global, script: &mut Script, number: u32, next: u32) -> Result<(), Memory> {
    let name = numbered(alloc, b"h", number, b".h")?;
    let mut text = numbered(alloc, b"include h", next, b".h\n")?;
    text.extend_from_slice(b"y\n")?;
    script.put(name.as_slice(), text.as_slice())
}

// A unit over so many headers, each of which includes the next one. The last one includes one of this number.
fn over_headers(alloc: Global, count: u32, last: u32) -> Result<Script, Memory> {
    let mut script = Script::new(alloc);
    for number in 1..count {
        put_header(alloc, &mut script, number, number.saturating_add(1))?;
    }
    put_header(alloc, &mut script, count, last)?;
    script.put(b"a.c", b"include h1.h\nx\n")?;
    script.ask(b"a.c:o")?;
    let mut object = Bytes::from_slice(alloc, b"x\n")?;
    for _ in 0..count {
        object.extend_from_slice(b"y\n")?;
    }
    let size = count.saturating_mul(2).saturating_add(2);
    script.reply_line(b"object ok simple ", size, b"")?;
    script.reply(object.as_slice())?;
    script.reply(b"\nmessages 0\n")?;
    Ok(script)
}

#[test]
fn follows_a_long_chain_of_headers(rt: HostRuntime) -> Result<(), Fail> {
    // The last header includes one that isn't there.
    let script = over_headers(rt.alloc(), 300, 301)?;
    assert!(rt; script.goes(rt.alloc(), C_UNITS, 302)?);
    Ok(())
}

#[test]
fn follows_a_long_loop_of_headers(rt: HostRuntime) -> Result<(), Fail> {
    let script = over_headers(rt.alloc(), 200, 1)?;
    assert!(rt; script.goes(rt.alloc(), C_UNITS, 202)?);
    Ok(())
}
