// The steps of a load, several at a time.
ghost use Rattle.std.specs.Prelude.{◌≤◌, ◌<◌, ◌∷◌, [], IfOk, IfErr, OnOk};
ghost use Rattle.meaning_texts.specs.Limits.{unit_limit};
ghost use Rattle.load_session.specs.Session.{headers, header_steps, unit_steps, puts_header, puts_unit, puts_list, first_steps, edit_steps};
ghost use Rattle.load_session.specs.Moments.{MayServeSteps, HasServed, HasAsked, LoadStopsFor};

use crate::asked::Asked;
use crate::session::Session;
use crate::texts::{HEADERS, LIST_NAME, header_name, header_text, list_text, unit_name, unit_text};
use odin_engine::StoreFault;
use std::alloc::Global;

// Puts a header that gives this value.
fn put_header(
    alloc: Global,
    session: &mut Session,
    number: u32,
    value: u32,
) -> Result<(), StoreFault>
    requires { MayServeSteps 1 session.old }
    ensures ok { OnOk result
        (HasServed session.old (puts_header value number ∷ []) [] session.new) }
    ensures err { IfErr result (LoadStopsFor session.old (puts_header value number ∷ [])) }
{
    let name = header_name(alloc, number)?;
    let text = header_text(alloc, number, value)?;
    session.put(alloc, name.as_slice(), text)
}

// Puts a unit.
fn put_unit(alloc: Global, session: &mut Session, number: u32) -> Result<(), StoreFault>
    requires some { 0 < number }
    requires may { MayServeSteps 1 session.old }
    ensures ok { OnOk result (HasServed session.old (puts_unit number ∷ []) [] session.new) }
    ensures err { IfErr result (LoadStopsFor session.old (puts_unit number ∷ [])) }
{
    let name = unit_name(alloc, number)?;
    let text = unit_text(alloc, number)?;
    session.put(alloc, name.as_slice(), text)
}

// Puts the list of so many units.
fn put_list(alloc: Global, session: &mut Session, units: u32) -> Result<(), StoreFault>
    requires few { units ≤ unit_limit }
    requires may { MayServeSteps 1 session.old }
    ensures ok { OnOk result (HasServed session.old (puts_list units ∷ []) [] session.new) }
    ensures err { IfErr result (LoadStopsFor session.old (puts_list units ∷ [])) }
{
    let text = list_text(alloc, units)?;
    session.put(alloc, LIST_NAME, text)
}

// Puts all headers.
fn put_headers(alloc: Global, session: &mut Session) -> Result<(), StoreFault>
    requires { MayServeSteps 12 session.old }
    ensures ok { OnOk result (HasServed session.old (header_steps headers) [] session.new) }
    ensures err { IfErr result (LoadStopsFor session.old (header_steps headers)) }
{
    for before in 0..HEADERS {
        put_header(alloc, session, before + 1, 1)?;
    }
    Ok(())
}

// Puts so many units.
fn put_units(alloc: Global, session: &mut Session, units: u32) -> Result<(), StoreFault>
    requires few { units ≤ unit_limit }
    requires may { MayServeSteps units session.old }
    ensures ok { OnOk result (HasServed session.old (unit_steps units) [] session.new) }
    ensures err { IfErr result (LoadStopsFor session.old (unit_steps units)) }
{
    for before in 0..units {
        put_unit(alloc, session, before + 1)?;
    }
    Ok(())
}

/// Puts all sources, and asks for the program.
pub(crate) fn serve_first(
    alloc: Global,
    session: &mut Session,
    units: u32,
) -> Result<Asked, StoreFault>
    requires few { units ≤ unit_limit }
    requires may { MayServeSteps 2013 session.old }
    ensures ok { IfOk result (HasAsked session.old (first_steps units) session.new) }
    ensures err { IfErr result (LoadStopsFor session.old (first_steps units)) }
{
    put_headers(alloc, session)?;
    put_units(alloc, session, units)?;
    put_list(alloc, session, units)?;
    session.ask(alloc)
}

/// Puts the first header with another value, and asks for the program.
pub(crate) fn serve_edit(
    alloc: Global,
    session: &mut Session,
    value: u32,
) -> Result<Asked, StoreFault>
    requires { MayServeSteps 1 session.old }
    ensures ok { IfOk result (HasAsked session.old (edit_steps value) session.new) }
    ensures err { IfErr result (LoadStopsFor session.old (edit_steps value)) }
{
    put_header(alloc, session, 1, value)?;
    session.ask(alloc)
}
