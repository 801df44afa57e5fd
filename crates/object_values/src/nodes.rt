// Nodes: a source, parameters, and the steps that lead from the source to the object.
use crate::text::Text;
use sequences::{Bytes, Copied, Memory, Seq, ShortSeq};
use std::alloc::Global;

/// A parameter with one of its values.
#[derive(PartialEq, Eq, PartialOrd, Ord, Hash, Drop)]
pub struct ParamValue {
    pub param: Bytes,
    pub value: Bytes,
}

/// One maker, by its number in the graph, or the pick of an element or a part.
#[derive(PartialEq, Eq, Hash, Drop)]
pub enum Step {
    Maker(u32),
    Pick(Text),
}

/// An object by the way to it. Without steps it is the source itself. There are many nodes at once, so their steps, mostly one or two, lie in them.
#[derive(PartialEq, Eq, Hash, Drop)]
pub struct Node {
    pub source: Bytes,
    pub params: Seq<ParamValue>,
    pub steps: ShortSeq<Step>,
}

impl Copied for ParamValue {
    fn copy(&self, alloc: Global) -> Result<Self, Memory> {
        Ok(ParamValue {
            param: self.param.copy(alloc)?,
            value: self.value.copy(alloc)?,
        })
    }
}

// What a place of a short list holds that isn't used.
impl Default for Step {
    ghost use Rattle.std.specs.Prelude.{◌≡◌};
    ghost use Rattle.object_values.specs.declared.nodes.Step.TheVariants.{Maker};

    ghost is_default = { λ step. step ≡ Maker 0 };

    fn default() -> Self {
        Step::Maker(0)
    }
}

impl Copied for Step {
    fn copy(&self, alloc: Global) -> Result<Self, Memory> {
        match self {
            Step::Maker(number) => Ok(Step::Maker(*number)),
            Step::Pick(key) => Ok(Step::Pick(key.copy(alloc)?)),
        }
    }
}

impl Copied for Node {
    fn copy(&self, alloc: Global) -> Result<Self, Memory> {
        Ok(Node {
            source: self.source.copy(alloc)?,
            params: self.params.copy(alloc)?,
            steps: self.steps.copy(alloc)?,
        })
    }
}
