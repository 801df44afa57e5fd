// What has a form in store files.
ghost use Rattle.std.specs.Prelude.{◌≡◌, ◌++◌, OnOk, IfOk, IfSome, IfNone};
ghost use Rattle.meaning_records.specs.Forms.{Form, IsOfOneThing, ParsesAt, StandsNowhere};

use object_values::{Bytes, Memory, Text};
use std::alloc::Global;

/// A thing with a form in store files. docs/engineer/store-format.md has the table of forms.
pub trait Recorded: Sized + Drop {
    ghost form: { Form Self };

    /// Adds the record of the thing at the end. A length or a count that isn't below 2^32 is answered as want of memory, and what was added by then is
    /// to be thrown away.
    fn put(&self, out: &mut Bytes) -> Result<(), Memory>
        ensures ok { OnOk result (out.new ≡ out.old ++ form.spell self.now) }
        ensures fits { OnOk result (form.fits self.now) };

    /// The thing at a place, and the place after it. `None` exactly where none stands there. A text of it shares the buffer.
    fn take(alloc: Global, from: &Text, at: usize) -> Result<Option<(Self, usize)>, Memory>
        ensures some { IfOk result
            (λ taken. IfSome taken (λ t. ParsesAt form from.now at t.1 t.0)) }
        ensures none { IfOk result (λ taken. IfNone taken (StandsNowhere form from.now at)) };

    /// A spelling is of one thing, and says where it ends.
    ghost one: { IsOfOneThing form };
}
