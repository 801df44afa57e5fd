// A value that work was done on.
ghost use Rattle.std.specs.Prelude.{◌≡◌, IfOk};
ghost use Rattle.std.specs.Result.{result_err};

/// The value, where the work on it is done. So a function that owns a value may do what can fail in another, which only borrows it.
pub fn when_done<T: Drop, E: Drop>(done: Result<(), E>, value: T) -> Result<T, E>
    ensures value { IfOk result (λ made. made ≡ value) }
    ensures err { result_err result ≡ result_err done }
{
    match done {
        Ok(()) => Ok(value),
        Err(fault) => Err(fault),
    }
}
