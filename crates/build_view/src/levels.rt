// The words of levels.
ghost use Rattle.std.specs.Prelude.{◌≡◌};
ghost use Rattle.build_view.specs.Levels as meaning;

use object_values::Status;

/// The word of a level, by which it also has its colour.
pub(crate) fn level_word(level: Status) -> &'static [u8]
    ensures { result.now ≡ meaning.level_word level }
{
    match level {
        Status::Ok => b"ok",
        Status::Warning => b"warning",
        Status::Error => b"error",
        Status::Abort => b"abort",
    }
}
