// The order of statuses.
ghost use Rattle.std.specs.Prelude.{◌≡◌};
ghost use Rattle.meaning_tasks.specs.Values.{worst};

use object_values::Status;

/// The later one in the order Ok, Warning, Error, Abort.
pub fn worst(a: Status, b: Status) -> Status
    ensures { result ≡ worst a b }
{
    a.max(b)
}
