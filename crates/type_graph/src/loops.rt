// The test for supertype loops.
ghost use Rattle.std.specs.Prelude.{◌≡◌, IfOk};
ghost use Rattle.object_values.specs.declared.graph.Decl.TheVariants.{ObjectType};
ghost use Rattle.meaning_graph.specs.Checks.{is_in_loop};

use crate::context::Context;
use object_values::{Decl, Memory, TypeDecl};
use std::alloc::Global;

impl<'a> Context<'a> {
    /// Whether the declaration is a type that is reached from itself by one or more supertypes.
    pub(crate) fn is_in_loop(&self, alloc: Global, decl: &Decl) -> Result<bool, Memory>
        ensures { IfOk result (λ loops. loops ≡ is_in_loop self.now decl.now) }
    {
        match decl {
            Decl::ObjectType(declared) => self.type_loops(alloc, declared),
            _ => Ok(false),
        }
    }

    fn type_loops(&self, alloc: Global, declared: &TypeDecl) -> Result<bool, Memory>
        ensures { IfOk result (λ loops. loops ≡ is_in_loop self.now (ObjectType declared.now)) }
    {
        if declared.supers.is_empty() {
            return Ok(false);
        }
        let starts = self.numbers(alloc, declared.supers.as_slice())?;
        match self.number(&declared.name) {
            Some(number) => self.any_is(alloc, starts.as_slice(), number),
            None => Ok(false),
        }
    }
}
