// What is found of nodes, one after another.
ghost use Rattle.std.specs.Prelude.{◌≡◌, ◌++◌, ◌∷◌, [], true, IfOk, OnOk, flat_map, map, max};
ghost use Rattle.meaning_tasks.specs.Nodes.{source_node};
ghost use Rattle.meaning_tasks.specs.Needs.{values_of, with_elements};
ghost use Rattle.task_needs.specs.Counting.{nodes_in};
ghost use Rattle.derive_walk.specs.Surveys.{TakesInNodes, survey_of};
ghost use Rattle.derive_walk.specs.Tables.{results_of};

use crate::done::Table;
use crate::heights::Heights;
use crate::looking::height_of;
use object_values::{Copied, Memory, Node, Seq};
use odin_bytes::Name;
use std::alloc::Global;
use task_needs::{Counted, elements_of, source_node};

/// What is found of nodes: the greatest of their heights, 0 of none; whether each has a result; and
/// those that were not visited, in their order.
pub struct Survey {
    pub top: u32,
    pub done: bool,
    pub unvisited: Seq<Node>,
}

impl Drop for Survey {
    fn drop(self) {
        let Survey {
            top: _,
            done: _,
            unvisited,
        } = self;
        drop(unvisited);
    }
}

impl Survey {
    /// Of no nodes.
    pub fn new(alloc: Global) -> Self
        ensures { result ≡ record { top = 0; done = true; unvisited = [] } }
    {
        Survey {
            top: 0,
            done: true,
            unvisited: Seq::new(alloc),
        }
    }

    /// Of the needs that count, and after them of the sources of the names. Only nodes that were
    /// not visited are copied.
    pub fn of_needs(
        alloc: Global,
        done: &Table,
        waiting: &Heights,
        counted: &Counted,
        names: &[Name],
    ) -> Result<Self, Memory>
        ensures { let nodes = nodes_in (values_of (results_of done.now)) counted.now in
            let needs = nodes ++ map source_node names.now in
            IfOk result (λ survey. survey ≡ survey_of done.now waiting.now needs) }
    {
        let mut survey = Survey::new(alloc);
        survey.add_whole(alloc, done, waiting, counted.whole.as_slice())?;
        survey.add_all(alloc, done, waiting, counted.alone.as_slice())?;
        survey.add_sources(alloc, done, waiting, names)?;
        Ok(survey)
    }

    // Takes in nodes, each with its elements.
    fn add_whole(
        &mut self,
        alloc: Global,
        done: &Table,
        waiting: &Heights,
        nodes: &[Node],
    ) -> Result<(), Memory>
        ensures { let known = values_of (results_of done.now) in
            let whole = flat_map (with_elements known) nodes.now in
            OnOk result (TakesInNodes done.now waiting.now whole self.old self.new) }
    {
        for node in nodes {
            self.add_with_elements(alloc, done, waiting, node)?;
        }
        Ok(())
    }

    fn add_with_elements(
        &mut self,
        alloc: Global,
        done: &Table,
        waiting: &Heights,
        node: &Node,
    ) -> Result<(), Memory>
        ensures { let whole = with_elements (values_of (results_of done.now)) node.now in
            OnOk result (TakesInNodes done.now waiting.now whole self.old self.new) }
    {
        self.add(alloc, done, waiting, node)?;
        let elements = elements_of(done, node);
        self.make_room(alloc, done, waiting, elements)?;
        self.add_all(alloc, done, waiting, elements)
    }

    // Makes room for many nodes of which the first was not visited: mostly the others weren't either.
    fn make_room(
        &mut self,
        alloc: Global,
        done: &Table,
        waiting: &Heights,
        nodes: &[Node],
    ) -> Result<(), Memory>
        ensures { self.new ≡ self.old }
    {
        let Some(first) = nodes.first() else {
            return Ok(());
        };
        if self.unvisited.is_empty() && height_of(done, waiting, first).is_none() {
            self.unvisited = Seq::from_vec(Vec::with_capacity(alloc, nodes.len())?);
        }
        Ok(())
    }

    fn add_sources(
        &mut self,
        alloc: Global,
        done: &Table,
        waiting: &Heights,
        names: &[Name],
    ) -> Result<(), Memory>
        ensures { let sources = map source_node names.now in
            OnOk result (TakesInNodes done.now waiting.now sources self.old self.new) }
    {
        for name in names {
            let source = source_node(alloc, name.as_slice())?;
            self.add(alloc, done, waiting, &source)?;
        }
        Ok(())
    }

    fn add_all(
        &mut self,
        alloc: Global,
        done: &Table,
        waiting: &Heights,
        nodes: &[Node],
    ) -> Result<(), Memory>
        ensures { OnOk result (TakesInNodes done.now waiting.now nodes.now self.old self.new) }
    {
        for node in nodes {
            self.add(alloc, done, waiting, node)?;
        }
        Ok(())
    }

    // Takes in one node more.
    fn add(
        &mut self,
        alloc: Global,
        done: &Table,
        waiting: &Heights,
        node: &Node,
    ) -> Result<(), Memory>
        ensures { OnOk result
            (TakesInNodes done.now waiting.now (node.now ∷ []) self.old self.new) }
    {
        if let Some(entry) = done.entry(node) {
            self.raise(entry.height);
            return Ok(());
        }
        self.done = false;
        match waiting.height(node) {
            Some(height) => self.raise(height),
            None => self.unvisited.push(node.copy(alloc)?)?,
        }
        Ok(())
    }

    fn raise(&mut self, height: u32)
        ensures { self.new ≡ record self.old { top = max self.old.top height } }
    {
        if self.top < height {
            self.top = height;
        }
    }
}
