// Results in a table.
ghost use Rattle.std.specs.Prelude.{◌≡◌, [], OnOk};
ghost use Rattle.test_support.specs.Tables.{PutsView};

use indexmap::IndexMap;
use node_tasks::Results;
use object_values::{Memory, Node, View};
use std::alloc::Global;
use std::marker::Model;

/// The views of nodes. Contracts see its entries.
pub struct Table {
    views: IndexMap<Node, View>,
}

impl Drop for Table {
    fn drop(self) {
        let Table { views } = self;
        drop(views);
    }
}

impl Model for Table {
    ghost use Rattle.test_support.specs.Tables.{ViewEntries};

    ghost Value = { ViewEntries };

    ghost view = { λ t. t.views.entries };
}

impl Table {
    pub fn new(alloc: Global) -> Self
        ensures { result ≡ [] }
    {
        Table {
            views: IndexMap::new(alloc),
        }
    }

    /// Adds the view of a node, in place of one that it has.
    pub fn put(&mut self, node: Node, view: View) -> Result<(), Memory>
        ensures { OnOk result (PutsView node view self.old self.new) }
    {
        self.views.insert(node, view)?;
        Ok(())
    }
}

impl Results for Table {
    ghost use Rattle.test_support.specs.Tables.{table_results, table_nodes};
    ghost use Rattle.test_support.specs.Finite.{only_table_nodes};

    ghost results = { table_results };

    ghost nodes = { table_nodes };

    ghost finite = { only_table_nodes };

    fn find(&self, node: &Node) -> Option<&View> {
        self.views.get(node)
    }
}
