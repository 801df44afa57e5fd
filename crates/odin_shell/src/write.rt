// A whole text into the sink.
ghost use Rattle.std.specs.Prelude.{◌≡◌, OnOk, OnErr};
ghost use Rattle.meaning_commands.specs.Objects.{took, TookPart};
ghost use Rattle.odin_shell.specs.Objects.{sink_of};

use odin_outside::{Failed, Sink};

/// Writes all of these bytes. An `Err` leaves a part of them written, and not all.
pub(crate) fn write_whole<O: Sink>(output: &mut O, bytes: &[u8]) -> Result<(), Failed>
    ensures ok { let sink = sink_of O.Sink in
        OnOk result (sink output.new ≡ took (sink output.old) bytes.now) }
    ensures err { let sink = sink_of O.Sink in
        OnErr result (TookPart bytes.now (sink output.old) (sink output.new)) }
{
    let mut at = 0;
    while at < bytes.len() {
        at += output.write(&bytes[at..])?;
    }
    Ok(())
}
