// Where child programs work.
ghost use Rattle.std.specs.Prelude.{◌≡◌};
ghost use Rattle.odin_real.specs.Paths.{work_path};

/// The folder of the folders of sessions, in the current one. What it stands in has to be there.
#[derive(Clone, Copy)]
pub enum Work {
    /// `odin.work`, that of `odin`.
    Sessions,
    /// `.odin/work`, that of `odin-build`.
    Builds,
}

impl Work {
    /// The path from the current folder.
    pub fn path(self) -> &'static str
        ensures { result.now ≡ work_path self }
    {
        match self {
            Work::Sessions => "odin.work",
            Work::Builds => ".odin/work",
        }
    }
}
