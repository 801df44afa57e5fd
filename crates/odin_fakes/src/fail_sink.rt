// Output that fails by plan.
ghost use Rattle.std.specs.Prelude.{◌≡◌, ◌<◌, length, take, Some, IfOk};
ghost use Rattle.odin_outside.specs.Causes.{HasCause};
ghost use Rattle.odin_fakes.specs.Output.{StopsWrite, taken_count, took_unplanned};

use crate::plan::Failing;
use crate::sink::MemSink;
use odin_outside::{Failed, Sink};

/// Output that fails by plan, and where no room is left.
pub type FailSink = Failing<MemSink>;

impl Sink for Failing<MemSink> {
    ghost taken = { λ s. Some s.inner.taken };

    ghost faults = { λ s. s.plan.faults };

    fn write(&mut self, bytes: &[u8]) -> Result<usize, Failed>
        requires { 0 < length bytes.now }
        ensures count { IfOk result (λ n. n ≡ taken_count self.old.inner (length bytes.now)) }
        ensures some { IfOk result (λ n. 0 < n) }
        ensures ok { IfOk result (λ n. self.new ≡ took_unplanned (take n bytes.now) self.old) }
        ensures stops { StopsWrite self.old self.new result }
        ensures cause { HasCause self.old.plan.faults self.new.plan.faults result }
    {
        self.plan.call()?;
        let taken = self.inner.write(bytes);
        if taken.is_err() {
            self.plan.count_fault();
        }
        taken
    }
}
