// Texts that are joined of others, in chains and in circles of many lengths.
use super::graphs::JOINED_TEXTS;
use super::scripts::{Script, numbered};
use object_values::Memory;
use std::alloc::Global;
use std::test::Fail;

// The source of this number names the joined text of the other one.
fn put_link(alloc: Global, script: &mut Script, number: u32, other: u32) -> Result<(), Memory> {
    let name = numbered(alloc, b"a", number, b".t")?;
    let text = numbered(alloc, b"a", other, b".t:u\n")?;
    script.put(name.as_slice(), text.as_slice())
}

// Sources from the first number on, up to an empty one of the last number.
fn put_chain(alloc: Global, script: &mut Script, last: u32) -> Result<(), Memory> {
    for number in 1..last {
        put_link(alloc, script, number, number.saturating_add(1))?;
    }
    let name = numbered(alloc, b"a", last, b".t")?;
    script.put(name.as_slice(), b"")
}

// The joined texts from 1 up to this number, a line each.
fn reply_chain(script: &mut Script, last: u32) -> Result<(), Memory> {
    for number in 0..last {
        script.reply_line(b"a", number.saturating_add(1), b".t:l:u")?;
    }
    Ok(())
}

const EMPTY: &[u8] = b"object ok simple 0\n\nmessages 0\n";

// A chain of 62 sources is as deep as may be.
fn deepest(alloc: Global) -> Result<Script, Memory> {
    let mut script = Script::new(alloc);
    put_chain(alloc, &mut script, 62)?;
    script.ask(b"a1.t:u")?;
    script.reply(EMPTY)?;
    Ok(script)
}

// Then it becomes one of 63, which is too deep.
fn chained(alloc: Global) -> Result<Script, Memory> {
    let mut script = deepest(alloc)?;
    put_link(alloc, &mut script, 62, 63)?;
    script.put(b"a63.t", b"")?;
    script.ask(b"a1.t:u")?;
    script.reply(b"refused deep 65\n")?;
    reply_chain(&mut script, 63)?;
    script.reply(b"a63.t:l\na63.t\n")?;
    Ok(script)
}

#[test]
fn refuses_what_is_too_deep(rt: HostRuntime) -> Result<(), Fail> {
    // The ask that is refused starts nothing.
    for script in [deepest(rt.alloc())?, chained(rt.alloc())?] {
        assert!(rt; script.goes(rt.alloc(), JOINED_TEXTS, 62)?);
    }
    Ok(())
}

// The text that is too deep names first one that is not, on which the other one stands too.
fn met_before(alloc: Global) -> Result<Script, Memory> {
    let mut script = Script::new(alloc);
    put_chain(alloc, &mut script, 62)?;
    script.put(b"m.t", b"a30.t:u\na1.t:u\n")?;
    script.ask(b"m.t:u")?;
    script.reply(b"refused deep 65\nm.t:l:u\n")?;
    reply_chain(&mut script, 62)?;
    script.reply(b"a62.t:l\na62.t\n")?;
    Ok(script)
}

#[test]
fn refuses_what_is_too_deep_over_nodes_that_were_met(rt: HostRuntime) -> Result<(), Fail> {
    let script = met_before(rt.alloc())?;
    assert!(rt; script.goes(rt.alloc(), JOINED_TEXTS, 0)?);
    Ok(())
}

// So many sources, the last of which names the first.
fn circle(alloc: Global, count: u32) -> Result<Script, Memory> {
    let mut script = Script::new(alloc);
    for number in 1..count {
        put_link(alloc, &mut script, number, number.saturating_add(1))?;
    }
    put_link(alloc, &mut script, count, 1)?;
    script.ask(b"a1.t:u")?;
    Ok(script)
}

// A circle is told whole, and ends where it began.
fn told_circle(alloc: Global, count: u32) -> Result<Script, Memory> {
    let mut script = circle(alloc, count)?;
    script.reply_line(b"refused circular ", count.saturating_add(1), b"")?;
    reply_chain(&mut script, count)?;
    script.reply(b"a1.t:l:u\n")?;
    Ok(script)
}

#[test]
fn refuses_circles(rt: HostRuntime) -> Result<(), Fail> {
    for count in [1, 2, 3, 62] {
        let script = told_circle(rt.alloc(), count)?;
        assert!(rt; script.goes(rt.alloc(), JOINED_TEXTS, 0)?);
    }
    Ok(())
}

// A circle of 64 is too deep before it closes: the source of its 63rd text stands two nodes below that.
fn long_circle(alloc: Global) -> Result<Script, Memory> {
    let mut script = circle(alloc, 64)?;
    script.reply(b"refused deep 65\n")?;
    reply_chain(&mut script, 63)?;
    script.reply(b"a63.t:l\na63.t\n")?;
    Ok(script)
}

#[test]
fn refuses_a_circle_that_is_too_deep(rt: HostRuntime) -> Result<(), Fail> {
    let script = long_circle(rt.alloc())?;
    assert!(rt; script.goes(rt.alloc(), JOINED_TEXTS, 0)?);
    Ok(())
}
