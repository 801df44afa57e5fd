// Expressions, and the lines of a reference list.
use crate::nodes::ParamValue;
use sequences::{Bytes, Copied, Memory, Seq};
use std::alloc::Global;

/// A step of an expression: to a type, or the pick of an element or a part.
#[derive(PartialEq, Eq, Drop)]
pub enum ExprStep {
    To(Bytes),
    Pick(Bytes),
}

/// A source, parameters and the steps to an object, as they are written.
#[derive(PartialEq, Eq, Drop)]
pub struct Expression {
    pub source: Bytes,
    pub params: Seq<ParamValue>,
    pub steps: Seq<ExprStep>,
}

/// A line of a reference list, with its number from 1: an expression, or a line that is none.
#[derive(PartialEq, Eq, Drop)]
pub enum Line {
    Good(u64, Expression),
    Bad(u64),
}

/// The lines of a reference list, or that there are more than 10,000.
#[derive(PartialEq, Eq, Drop)]
pub enum Lines {
    These(Seq<Line>),
    TooMany,
}

impl Copied for ExprStep {
    fn copy(&self, alloc: Global) -> Result<Self, Memory> {
        match self {
            ExprStep::To(bytes) => Ok(ExprStep::To(bytes.copy(alloc)?)),
            ExprStep::Pick(bytes) => Ok(ExprStep::Pick(bytes.copy(alloc)?)),
        }
    }
}

impl Copied for Expression {
    fn copy(&self, alloc: Global) -> Result<Self, Memory> {
        Ok(Expression {
            source: self.source.copy(alloc)?,
            params: self.params.copy(alloc)?,
            steps: self.steps.copy(alloc)?,
        })
    }
}

impl Copied for Line {
    fn copy(&self, alloc: Global) -> Result<Self, Memory> {
        match self {
            Line::Good(number, expression) => Ok(Line::Good(*number, expression.copy(alloc)?)),
            Line::Bad(number) => Ok(Line::Bad(*number)),
        }
    }
}

impl Copied for Lines {
    fn copy(&self, alloc: Global) -> Result<Self, Memory> {
        match self {
            Lines::These(items) => Ok(Lines::These(items.copy(alloc)?)),
            Lines::TooMany => Ok(Lines::TooMany),
        }
    }
}
