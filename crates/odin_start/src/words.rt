// The words of the program.
ghost use Rattle.std.specs.Prelude.{◌≡◌, IsErr, IfOk};
ghost use Rattle.odin_start.specs.Words.{words_among, IsWanting};

use object_values::Memory;
use std::alloc::Global;
use std::env::{self, Args, Env};
use std::io::{self, ErrorKind};

/// The words among what the system gave as arguments. Where one of them is no text there are none.
pub fn words_among(alloc: Global, args: io::Result<Args>) -> Result<Vec<String>, Memory>
    ensures ok { IfOk result (λ words. words.items ≡ words_among args) }
    ensures memory { IsWanting args → IsErr result }
{
    let mut words = Vec::new(alloc);
    match args {
        Ok(args) => {
            for word in args {
                words.push(word)?;
            }
        }
        Err(fault) => {
            if fault.kind() == ErrorKind::OutOfMemory {
                return Err(Memory);
            }
        }
    }
    Ok(words)
}

/// The words of the program, as the system has them.
pub fn words_of<R: Env + AllocGlobal>(rt: &R) -> Result<Vec<String>, Memory> {
    words_among(rt.alloc(), env::args(rt))
}
