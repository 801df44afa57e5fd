// The names that are listed, and the lines that take them.
ghost use Rattle.std.specs.Prelude.{◌≡◌, ◌++◌, IfOk, OnOk};
ghost use Rattle.meaning_texts.specs.Lines.{with_lf};
ghost use Rattle.odin_bytes.specs.declared.commands.Command.TheVariants.{Take};
ghost use Rattle.meaning_commands.specs.Commands.{Spells};
ghost use Rattle.build_files.specs.Listed.{take_line, take_lines, IsListed};

use object_values::{Bytes, Memory};
use odin_bytes::Name;

/// The names, each once, by their bytes.
pub fn listed(names: Vec<Name>) -> Result<Vec<Name>, Memory>
    ensures { IfOk result (λ listed. IsListed names.items listed.items) }
{
    let mut listed = names;
    listed.sort()?;
    listed.dedup();
    Ok(listed)
}

/// Adds the line that takes a file at the end. Where memory is wanted, it leaves what it began.
fn write_take(name: &Name, out: &mut Bytes) -> Result<(), Memory>
    ensures line { OnOk result (out.new ≡ out.old ++ with_lf (take_line name.now)) }
    ensures spelled { OnOk result (Spells (take_line name.now) (Take name.now)) }
{
    out.extend_from_slice(b"take ")?;
    out.extend_from_slice(name.as_slice())?;
    out.push(b'\n')
}

/// Adds the lines at the end. Where memory is wanted, it leaves what it began.
pub fn write_takes(names: &[Name], out: &mut Bytes) -> Result<(), Memory>
    ensures { OnOk result (out.new ≡ out.old ++ take_lines names.now) }
{
    for name in names {
        write_take(name, out)?;
    }
    Ok(())
}
