// What a node takes over from its needs.
ghost use Rattle.std.specs.Prelude.{◌≡◌, ◌&&◌, [], true, flat_map, option_map, IfOk, OnOk};
ghost use Rattle.meaning_tasks.specs.Values.{inherit, worst};
ghost use Rattle.meaning_tasks.specs.Needs.{has_value, values_of, with_elements};
ghost use Rattle.meaning_tasks.specs.Settle.{messages_in, status_in};
ghost use Rattle.odin_nodes.specs.Inheriting.{Inherits};
ghost use Rattle.task_needs.specs.Counting.{nodes_in};
ghost use Rattle.task_needs.specs.TakingOver.{TakesOver};

use crate::counted::Counted;
use crate::results::{Results, elements_of};
use object_values::{Memory, Message, Node, SharedSeq, Status, View};
use odin_nodes::{Inherited, worst};
use std::alloc::Global;

/// What is taken over from needs: whether all have values, the worst status beside the own one,
/// and their messages.
pub struct Taken {
    pub valued: bool,
    pub status: Status,
    pub messages: Inherited,
}

impl Drop for Taken {
    fn drop(self) {
        let Taken {
            valued: _,
            status: _,
            messages,
        } = self;
        drop(messages);
    }
}

impl Taken {
    /// From no need yet, beside the own status.
    pub fn new(alloc: Global, own: Status) -> Self
        ensures { result ≡ record { valued = true; status = own; messages = [] } }
    {
        Taken {
            valued: true,
            status: own,
            messages: Inherited::new(alloc),
        }
    }

    /// Takes over from the needs that count.
    pub fn take<R: Results>(
        &mut self,
        alloc: Global,
        counted: &Counted,
        seen: &R,
    ) -> Result<(), Memory>
        ensures { let nodes = nodes_in (values_of (R.results seen.now)) counted.now in
            OnOk result (TakesOver (R.results seen.now) nodes self.old self.new) }
    {
        self.take_whole(alloc, counted.whole.as_slice(), seen)?;
        self.take_all(alloc, counted.alone.as_slice(), seen)
    }

    /// The messages that are taken over, and after them the own ones.
    pub fn into_messages(self, alloc: Global, own: &[Message]) -> Result<SharedSeq<Message>, Memory>
        ensures { IfOk result (λ all. all ≡ inherit self.messages own.now) }
    {
        let Taken {
            valued: _,
            status: _,
            messages,
        } = self;
        with_own(alloc, messages, own)
    }

    // From nodes with their elements.
    fn take_whole<R: Results>(
        &mut self,
        alloc: Global,
        nodes: &[Node],
        seen: &R,
    ) -> Result<(), Memory>
        ensures { let known = values_of (R.results seen.now) in
            let whole = flat_map (with_elements known) nodes.now in
            OnOk result (TakesOver (R.results seen.now) whole self.old self.new) }
    {
        for node in nodes {
            self.take_with_elements(alloc, node, seen)?;
        }
        Ok(())
    }

    fn take_with_elements<R: Results>(
        &mut self,
        alloc: Global,
        node: &Node,
        seen: &R,
    ) -> Result<(), Memory>
        ensures { let whole = with_elements (values_of (R.results seen.now)) node.now in
            OnOk result (TakesOver (R.results seen.now) whole self.old self.new) }
    {
        self.take_view(alloc, seen.find(node))?;
        self.take_all(alloc, elements_of(seen, node), seen)
    }

    fn take_all<R: Results>(
        &mut self,
        alloc: Global,
        nodes: &[Node],
        seen: &R,
    ) -> Result<(), Memory>
        ensures { OnOk result (TakesOver (R.results seen.now) nodes.now self.old self.new) }
    {
        for node in nodes {
            self.take_view(alloc, seen.find(node))?;
        }
        Ok(())
    }

    // From a need with this view.
    fn take_view(&mut self, alloc: Global, view: Option<&View>) -> Result<(), Memory>
        ensures valued { let viewed = option_map (λ v. v.now) view.entry in
            let known = option_map (λ v. v.value) viewed in
            OnOk result (self.new.valued ≡ (self.old.valued && has_value known)) }
        ensures status { let status = status_in (option_map (λ v. v.now) view.entry) in
            OnOk result (self.new.status ≡ worst status self.old.status) }
        ensures messages { let messages = messages_in (option_map (λ v. v.now) view.entry) in
            OnOk result (Inherits self.old.messages messages self.new.messages) }
    {
        self.valued = self.valued && has_value(view);
        self.status = worst(status_in(view), self.status);
        self.messages.add(alloc, messages_in(view))
    }
}

fn has_value(view: Option<&View>) -> bool
    ensures { let viewed = option_map (λ v. v.now) view.entry in
        result ≡ has_value (option_map (λ v. v.value) viewed) }
{
    match view {
        Some(view) => view.value.is_some(),
        None => false,
    }
}

fn status_in(view: Option<&View>) -> Status
    ensures { result ≡ status_in (option_map (λ v. v.now) view.entry) }
{
    match view {
        Some(view) => view.status,
        None => Status::Abort,
    }
}

fn messages_in(view: Option<&View>) -> &[Message]
    ensures { result.now ≡ messages_in (option_map (λ v. v.now) view.entry) }
{
    match view {
        Some(view) => view.messages.as_slice(),
        None => &[],
    }
}

// The messages of the needs, and after them the own ones.
fn with_own(
    alloc: Global,
    messages: Inherited,
    own: &[Message],
) -> Result<SharedSeq<Message>, Memory>
    ensures { IfOk result (λ all. all ≡ inherit messages own.now) }
{
    let mut messages = messages;
    messages.add(alloc, own)?;
    messages.into_messages(alloc)
}
