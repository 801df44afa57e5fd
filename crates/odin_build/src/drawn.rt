// The objects that targets are made from, as the store has them, for the page.
use crate::hints::{Named, name_in};
use build_view::boxes::{Drawing, PageBox, PageColumn, PageEdge, Spot};
use indexmap::{IndexMap, IndexSet};
use object_values::{Bytes, Copied, Dep, Memory, Node, Seen, Seq};
use odin_engine::Engine;
use odin_nodes::{label_of, type_of};
use project_file::project::Target;
use std::alloc::Global;
use type_graph::Graph;

/// How many objects are shown at most, since each has the numbers of all that it is made from.
const MOST: usize = 400;

/// How many steps there are at most from object to object.
const STEPS: u32 = 1_000_000;

/// The type of a source whose suffix is none of the graph.
const TEXT: &[u8] = b"text";

// ---- the objects in the order in which they are made

/// An object of which one dep after another is looked at.
#[derive(Drop)]
struct Open {
    node: Node,
    next: usize,
}

#[derive(Drop)]
struct Walk<'a> {
    engine: &'a Engine,
    open: Vec<Open>,
    met: IndexSet<Node>,
    made: IndexSet<Node>,
    is_whole: bool,
}

/// The deps of an object by its record. A source has none.
fn deps_of<'a>(engine: &'a Engine, node: &Node) -> &'a [Dep] {
    match engine.store().kept().get(node) {
        Some(record) => record.deps.as_slice(),
        None => &[],
    }
}

/// Whether there is something to show: a source that was looked for and isn't there is no object.
fn is_object(dep: &Dep) -> bool {
    dep.seen != Seen::Nothing || !dep.node.steps.as_slice().is_empty()
}

impl<'a> Walk<'a> {
    fn new(alloc: Global, engine: &'a Engine) -> Self {
        Walk {
            engine,
            open: Vec::new(alloc),
            met: IndexSet::new(alloc),
            made: IndexSet::new(alloc),
            is_whole: true,
        }
    }

    /// Begins with an object, unless it was met.
    fn begin(&mut self, alloc: Global, node: &Node) -> Result<(), Memory> {
        if self.met.contains(node) {
            return Ok(());
        }
        if self.met.len() >= MOST {
            self.is_whole = false;
            return Ok(());
        }
        self.met.insert(node.copy(alloc)?)?;
        let node = node.copy(alloc)?;
        self.open.push(Open { node, next: 0 }).map_err(|_| Memory)
    }

    /// Looks at the next dep of the object that was begun last, or ends with it. Gives whether there was one.
    fn step(&mut self, alloc: Global) -> Result<bool, Memory> {
        let Some(Open { node, next }) = self.open.pop() else {
            return Ok(false);
        };
        let Some(dep) = deps_of(self.engine, &node).get(next) else {
            self.made.insert(node)?;
            return Ok(true);
        };
        let next = next.saturating_add(1);
        self.open.push(Open { node, next }).map_err(|_| Memory)?;
        if is_object(dep) {
            self.begin(alloc, &dep.node)?;
        }
        Ok(true)
    }

    /// Takes an object, and before it all that it is made from. Bounded, since a record in a file may say anything.
    fn take(&mut self, alloc: Global, node: &Node) -> Result<(), Memory> {
        self.begin(alloc, node)?;
        for _ in 0..STEPS {
            if !self.step(alloc)? {
                return Ok(());
            }
        }
        self.is_whole = false;
        self.open.clear();
        Ok(())
    }
}

// ---- where they stand

/// The name of an object's type.
fn type_name<'a>(graph: &'a Graph, node: &Node) -> &'a [u8] {
    let Some(number) = type_of(graph, node) else {
        return TEXT;
    };
    let mut count = 0_u32;
    for decl in graph.decls() {
        if let Some(name) = name_in(decl, Named::Type) {
            count = count.saturating_add(1);
            if count == number {
                return name;
            }
        }
    }
    TEXT
}

/// The next place in the column of a type.
fn spot_in(alloc: Global, name: &[u8], columns: &mut IndexMap<Bytes, u32>) -> Result<Spot, Memory> {
    let name = Bytes::from_slice(alloc, name)?;
    let (column, row) = match columns.get_full(&name) {
        Some((place, _, rows)) => (place, *rows),
        None => (columns.len(), 0),
    };
    columns.insert(name, row.saturating_add(1))?;
    let column = column.min(MOST) as u32;
    Ok(Spot { column, row })
}

/// The boxes that an object of these deps has lines from: those that stand before it.
fn used_boxes<'a>(
    alloc: Global,
    deps: &[Dep],
    made: &IndexSet<Node>,
    boxes: &'a [PageBox],
) -> Result<Vec<&'a PageBox>, Memory> {
    let mut used = Vec::new(alloc);
    for dep in deps {
        if let Some(place) = made.get_index_of(&dep.node) {
            if let Some(object) = boxes.get(place) {
                used.push(object).map_err(|_| Memory)?;
            }
        }
    }
    Ok(used)
}

/// The numbers of these boxes and of all that they are made from, each once.
fn all_uses(alloc: Global, used: &[&PageBox]) -> Result<Seq<u32>, Memory> {
    let mut uses = IndexSet::new(alloc);
    for object in used {
        uses.insert(object.number)?;
        for number in object.uses.as_slice() {
            uses.insert(*number)?;
        }
    }
    Ok(Seq::from_vec(Vec::from_iter(alloc, uses)?))
}

fn add_edges(used: &[&PageBox], to: Spot, edges: &mut Seq<PageEdge>) -> Result<(), Memory> {
    for object in used {
        edges.push(PageEdge {
            from: object.spot,
            to,
        })?;
    }
    Ok(())
}

/// Adds the box of an object to those that stand before it.
fn add_box(
    alloc: Global,
    engine: &Engine,
    node: &Node,
    made: &IndexSet<Node>,
    columns: &mut IndexMap<Bytes, u32>,
    drawing: &mut Drawing,
) -> Result<(), Memory> {
    let spot = spot_in(alloc, type_name(engine.graph(), node), columns)?;
    let used = used_boxes(alloc, deps_of(engine, node), made, drawing.boxes.as_slice())?;
    let uses = all_uses(alloc, used.as_slice())?;
    add_edges(used.as_slice(), spot, &mut drawing.edges)?;
    drop(used);
    let status = match engine.store().kept().get(node) {
        Some(record) => Some(record.own_status),
        None => None,
    };
    let number = drawing.boxes.len().min(MOST) as u32;
    let label = label_of(alloc, engine.graph(), node)?;
    drawing.boxes.push(PageBox {
        number,
        label,
        status,
        spot,
        uses,
    })
}

fn columns_of(alloc: Global, columns: &IndexMap<Bytes, u32>) -> Result<Seq<PageColumn>, Memory> {
    let mut found = Seq::new(alloc);
    for (place, (name, _)) in columns.iter().enumerate() {
        found.push(PageColumn {
            name: name.copy(alloc)?,
            column: place.min(MOST) as u32,
        })?;
    }
    Ok(found)
}

// ---- the whole

/// No objects.
pub(crate) fn empty_drawing(alloc: Global) -> Drawing {
    Drawing {
        columns: Seq::new(alloc),
        edges: Seq::new(alloc),
        boxes: Seq::new(alloc),
        is_whole: true,
    }
}

/// The objects that targets are made from, by the records of the store.
pub(crate) fn drawing_of(
    alloc: Global,
    engine: &Engine,
    targets: &[&Target],
) -> Result<Drawing, Memory> {
    let mut walk = Walk::new(alloc, engine);
    for target in targets {
        // A target that is refused has no object.
        if let Ok(node) = engine.plan(alloc, target.ask.as_slice()) {
            walk.take(alloc, &node)?;
        }
    }
    let mut drawing = empty_drawing(alloc);
    let mut columns = IndexMap::new(alloc);
    for node in walk.made.iter() {
        add_box(alloc, engine, node, &walk.made, &mut columns, &mut drawing)?;
    }
    drawing.columns = columns_of(alloc, &columns)?;
    drawing.is_whole = walk.is_whole;
    Ok(drawing)
}
