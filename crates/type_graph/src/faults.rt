// The first fault of declarations.
ghost use Rattle.std.specs.Prelude.{◌≡◌, ◌-◌, ◌≤◌, IfOk, IfErr, OnOk, take, None};
ghost use Rattle.meaning_texts.specs.Limits.{declaration_limit};
ghost use Rattle.type_graph.specs.Faults.{IsCheckFaultOf, least_fault};
ghost use Rattle.type_graph.specs.Spaces.{counts_of};
ghost use Rattle.type_graph.specs.Tables.{AreChecked};

use crate::context::Context;
use crate::fault::CheckFault;
use crate::spaces::Counts;
use object_values::{DECLARATION_LIMIT, Decl, GraphFault, Memory};
use std::alloc::Global;

impl<'a> Context<'a> {
    /// The least fault of the declaration of a number, from 1.
    #[tactic(auto, unfolding(meaning_graph::specs::Checks::has_fault))]
    fn fault_of(
        &self,
        alloc: Global,
        number: u32,
        before: &Counts,
        decl: &Decl,
    ) -> Result<Option<GraphFault>, Memory>
        requires { before.now ≡ counts_of (take (number - 1) self.now) }
        ensures fault { IfOk result (λ fault. fault ≡ least_fault self.now number decl.now) }
        ensures few { IfOk result (λ fault. fault ≡ None → number ≤ declaration_limit) }
    {
        if !self.all_types_known(decl) {
            return Ok(Some(GraphFault::UnknownType));
        }
        if self.doubles_name(alloc, before, decl)? {
            return Ok(Some(GraphFault::DoubleName));
        }
        if self.is_in_loop(alloc, decl)? {
            return Ok(Some(GraphFault::SupertypeLoop));
        }
        if !self.keeps_rules(alloc, decl)? {
            return Ok(Some(GraphFault::WrongKind));
        }
        if number > DECLARATION_LIMIT {
            return Ok(Some(GraphFault::TooMany));
        }
        if self.uses_unknown_param(decl) {
            return Ok(Some(GraphFault::UnknownParam));
        }
        Ok(None)
    }
}

/// Checks declarations: the fault that is answered has the least declaration number, and there the least fault number.
pub(crate) fn check(alloc: Global, context: &Context, decls: &[Decl]) -> Result<(), CheckFault>
    requires { context.now ≡ decls.now }
    ensures ok { OnOk result (AreChecked decls.now) }
    ensures err { IfErr result (IsCheckFaultOf decls.now) }
{
    let mut before = Counts {
        types: 1,
        suffixes: 0,
        params: 0,
        makers: 0,
    };
    let mut number = 0;
    for decl in decls {
        number += 1;
        if let Some(fault) = context.fault_of(alloc, number, &before, decl)? {
            return Err(CheckFault::Graph(number, fault));
        }
        before.add(decl);
    }
    Ok(())
}
