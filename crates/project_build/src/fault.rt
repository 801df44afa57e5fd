// Why a project isn't built.
use dg_reader::ReadFault;
use fresh_build::ListFault;
use object_values::{Bytes, Memory};
use odin_engine::StoreFault;

/// Why there is no graph.
#[derive(Clone, Copy)]
pub enum GraphRefused {
    /// There is no such file.
    NoFile,
    /// Its text is refused.
    Text(ReadFault),
    /// The tree failed.
    Tree,
    Memory,
}

/// Why no more targets are built.
#[derive(Drop)]
pub enum TargetFault {
    /// The store failed, or memory is wanted for it.
    Store(StoreFault),
    /// A file of the target with this name could not be written.
    Output(Bytes),
    Memory,
}

impl From<StoreFault> for TargetFault {
    ghost use Rattle.std.specs.Prelude.{◌≡◌};
    ghost use Rattle.project_build.specs.declared.fault.TargetFault.TheVariants as fault;

    ghost from_gives = { λ why given. given ≡ fault.Store why };

    fn from(why: StoreFault) -> Self {
        TargetFault::Store(why)
    }
}

impl From<Memory> for TargetFault {
    ghost use Rattle.std.specs.Prelude.{◌≡◌};
    ghost use Rattle.project_build.specs.declared.fault.TargetFault.TheVariants as fault;

    ghost from_gives = { λ _ given. given ≡ fault.Memory };

    fn from(_: Memory) -> Self {
        TargetFault::Memory
    }
}

/// Why a project isn't built.
#[derive(Drop)]
pub enum BuildFault {
    /// The graph isn't read.
    Graph(GraphRefused),
    /// The listed files make no sources.
    Sources(ListFault),
    /// The store was not opened, or the sources were not set.
    Store(StoreFault),
    /// A target was not built.
    Target(TargetFault),
}

impl From<GraphRefused> for BuildFault {
    ghost use Rattle.std.specs.Prelude.{◌≡◌};
    ghost use Rattle.project_build.specs.declared.fault.BuildFault.TheVariants as fault;

    ghost from_gives = { λ why given. given ≡ fault.Graph why };

    fn from(why: GraphRefused) -> Self {
        BuildFault::Graph(why)
    }
}

impl From<ListFault> for BuildFault {
    ghost use Rattle.std.specs.Prelude.{◌≡◌};
    ghost use Rattle.project_build.specs.declared.fault.BuildFault.TheVariants as fault;

    ghost from_gives = { λ why given. given ≡ fault.Sources why };

    fn from(why: ListFault) -> Self {
        BuildFault::Sources(why)
    }
}

impl From<StoreFault> for BuildFault {
    ghost use Rattle.std.specs.Prelude.{◌≡◌};
    ghost use Rattle.project_build.specs.declared.fault.BuildFault.TheVariants as fault;

    ghost from_gives = { λ why given. given ≡ fault.Store why };

    fn from(why: StoreFault) -> Self {
        BuildFault::Store(why)
    }
}

impl From<TargetFault> for BuildFault {
    ghost use Rattle.std.specs.Prelude.{◌≡◌};
    ghost use Rattle.project_build.specs.declared.fault.BuildFault.TheVariants as fault;

    ghost from_gives = { λ why given. given ≡ fault.Target why };

    fn from(why: TargetFault) -> Self {
        BuildFault::Target(why)
    }
}
