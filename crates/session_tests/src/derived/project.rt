// A project of forty units and twelve headers.
use super::graphs::C_UNITS;
use super::scripts::{Script, numbered};
use object_values::{Bytes, Memory};
use std::alloc::Global;
use std::test::Fail;

const UNITS: u32 = 40;

const HEADERS: u32 = 12;

// The number of the header that a unit includes, both from 1.
fn header_of(unit: u32) -> u32 {
    unit.saturating_sub(1) % HEADERS + 1
}

// The line of a header. The first header's changes.
fn header_line(alloc: Global, number: u32, first: &[u8]) -> Result<Bytes, Memory> {
    numbered(
        alloc,
        b"w",
        number,
        if number == 1 { first } else { b"=1\n" },
    )
}

// Each header, and each unit with the line of its header and one of its own.
fn put_sources(alloc: Global, script: &mut Script) -> Result<(), Memory> {
    for number in 1..HEADERS + 1 {
        let name = numbered(alloc, b"h", number, b".h")?;
        let line = header_line(alloc, number, b"=1\n")?;
        script.put(name.as_slice(), line.as_slice())?;
    }
    let mut list = Bytes::new(alloc);
    for unit in 1..UNITS + 1 {
        let name = numbered(alloc, b"u", unit, b".c")?;
        let mut text = numbered(alloc, b"include h", header_of(unit), b".h\n")?;
        let own = numbered(alloc, b"v", unit, b"=1\n")?;
        text.extend_from_slice(own.as_slice())?;
        script.put(name.as_slice(), text.as_slice())?;
        list.extend_from_slice(name.as_slice())?;
        list.push(b'\n')?;
    }
    script.put(b"m.sm", list.as_slice())
}

// What is linked of all of them is asked for.
fn ask_all(alloc: Global, script: &mut Script, first: &[u8]) -> Result<(), Memory> {
    script.ask(b"m.sm:exe")?;
    script.reply(b"object ok simple 440\n")?;
    for unit in 1..UNITS + 1 {
        let own = numbered(alloc, b"v", unit, b"=1\n")?;
        let line = header_line(alloc, header_of(unit), first)?;
        script.reply(own.as_slice())?;
        script.reply(line.as_slice())?;
    }
    script.reply(b"\nmessages 0\n")
}

fn forty_units(alloc: Global) -> Result<Script, Memory> {
    let mut script = Script::new(alloc);
    put_sources(alloc, &mut script)?;
    ask_all(alloc, &mut script, b"=1\n")?;
    script.put(b"h1.h", b"w1=2\n")?;
    ask_all(alloc, &mut script, b"=2\n")?;
    Ok(script)
}

#[test]
fn links_a_project_of_forty_units(rt: HostRuntime) -> Result<(), Fail> {
    let script = forty_units(rt.alloc())?;
    assert!(rt; script.goes(rt.alloc(), C_UNITS, 99)?);
    Ok(())
}
