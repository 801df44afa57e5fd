// Where the input comes from.
ghost use Rattle.std.specs.Prelude.{◌≡◌, ◌<◌, ◌≤◌, ℕ, List, [], Option, length, IfOk, OnErr};
ghost use Rattle.std.specs.Option.{ForSome};
ghost use Rattle.odin_outside.specs.Causes.{HasCause};
ghost use Rattle.odin_outside.specs.Told.{AreNext};

use crate::failed::Failed;

/// Where the input comes from.
pub trait Source {
    /// What is left, where the source tells it.
    ghost left: { Self → Option (List ℕ) };

    /// How often it has failed.
    ghost faults: { Self → ℕ };

    /// Reads the next bytes into the front of the buffer, and says how many: 0 is the end of the input. What stands after them in
    /// the buffer, and in all of it after an `Err`, is left open.
    fn read(&mut self, into: &mut [u8]) -> Result<usize, Failed>
        requires { 0 < length into.old }
        ensures bound { IfOk result (λ n. n ≤ length into.new) }
        ensures bytes { IfOk result (AreNext into.new (left self.old) (left self.new)) }
        ensures end { IfOk result (λ n. n ≡ 0 → ForSome (left self.old) (λ rest. rest ≡ [])) }
        ensures err { OnErr result (left self.new ≡ left self.old) }
        ensures cause { HasCause (faults self.old) (faults self.new) result };
}
