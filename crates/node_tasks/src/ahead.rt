// The needs that come into sight as lines are followed, a level at a time.
ghost use Rattle.std.specs.Prelude.{◌≡◌, Bool, [], IfOk, IfSome, OnOk, true};
ghost use Rattle.std.specs.List.Sorted.{IsPermutation};
ghost use Rattle.object_values.specs.declared.graph.MakerDecl.{MakerDecl as MakerValue};
ghost use Rattle.object_values.specs.declared.nodes.Node.{Node as NodeValue};
ghost use Rattle.meaning_graph.specs.Graphs.{Graph as GraphValue};
ghost use Rattle.meaning_tasks.specs.Nodes.{Fits, base_of};
ghost use Rattle.meaning_tasks.specs.Tasks.{Task as TaskValue, scan_node, tool_task, tooled};
ghost use Rattle.meaning_tasks.specs.Needs.{Results as ResultMap, Known as KnownValues, values_of, has_value};
ghost use Rattle.node_tasks.specs.Ahead.{AreInSight, AreLed, IsAhead, IsInSight, IsLedOn, IsLevel, IsOfLevel, IsReachedScan, IsUnseen};

use crate::base::base_of;
use crate::task::tool_at;
use dynamic_inputs::Names;
use object_values::{Memory, Node, Seq, ToolDecl};
use path_planner::PlannedGraph;
use std::alloc::Global;
use std::mem;
use task_needs::{Results, is_present, scan_node, source_node, told_lines, value_of};

/// The nodes that were visited.
pub trait VisitedNodes {
    /// Whether the node was visited.
    ghost visited: { Self → NodeValue → Bool };

    fn has(&self, node: &Node) -> bool
        ensures { result ≡ visited self.now node.now };
}

/// What a node was told so far of the names to which lines lead. It stays while results are added,
/// so that a chain of names is followed once, and not from its start for each of them.
///
/// A name is told the lines that it has once its source and its scan node were visited. So what
/// comes into sight are needs, but perhaps not all, where these get results only later:
/// `Needed::find` finds all.
pub struct Ahead {
    // Whether the own lines were told.
    own: bool,
    // The names in the lines that were told.
    names: Names,
    // So many of the first names were looked at.
    looked: usize,
    // The places of those of them that weren't told their lines.
    untold: Seq<usize>,
}

impl Drop for Ahead {
    fn drop(self) {
        let Ahead {
            own: _,
            names,
            looked: _,
            untold,
        } = self;
        drop(names);
        drop(untold);
    }
}

impl Ahead {
    /// Nothing is told yet.
    pub fn new(alloc: Global) -> Self
        ensures { (g : GraphValue) (n : NodeValue) (seen : ResultMap) → IsAhead g n seen result }
    {
        Ahead {
            own: false,
            names: Names::new(alloc),
            looked: 0,
            untold: Seq::new(alloc),
        }
    }

    /// The needs that come into sight by these results and were not visited, in the order in which
    /// they stand among all needs: those of each name to which lines lead without any of them.
    /// After want of memory the names are looked at again.
    pub fn level<R: Results, V: VisitedNodes>(
        &mut self,
        alloc: Global,
        planned: &PlannedGraph<'_>,
        node: &Node,
        seen: &R,
        visited: &V,
    ) -> Result<Seq<Node>, Memory>
        requires fits { Fits planned.now node.now }
        requires ahead { IsAhead planned.now node.now (R.results seen.now) self.old }
        ensures ahead { IsAhead planned.now node.now (R.results seen.now) self.new }
        ensures level { let before = V.visited visited.now in
            IfOk result (IsLevel planned.now node.now (R.results seen.now) before) }
    {
        let Some((_, tool)) = tool_at(planned.graph(), node) else {
            return Ok(Seq::new(alloc));
        };
        let base = base_of(alloc, node)?;
        let Some(_) = value_of(seen, &base) else {
            return Ok(Seq::new(alloc));
        };
        let level = follow(alloc, planned, node, tool, seen, visited, self)?;
        level.in_order()
    }
}

// The needs of one level: nodes of sources, and scan nodes, which stand before them among all
// needs.
struct Level {
    // The places of the names that bring them.
    untold: Seq<usize>,
    scans: Seq<Node>,
    sources: Seq<Node>,
}

impl Drop for Level {
    fn drop(self) {
        let Level {
            untold,
            scans,
            sources,
        } = self;
        drop(untold);
        drop(scans);
        drop(sources);
    }
}

impl Level {
    fn new(alloc: Global) -> Self
        ensures { result ≡ record { untold = []; scans = []; sources = [] } }
    {
        Level {
            untold: Seq::new(alloc),
            scans: Seq::new(alloc),
            sources: Seq::new(alloc),
        }
    }

    // The needs in one list: the scan nodes and then the sources, each in the order of their names.
    fn in_order(self) -> Result<Seq<Node>, Memory>
        ensures { (t : TaskValue) (known : KnownValues) (visited : NodeValue → Bool) →
            IsOfLevel t known visited self → IfOk result (AreInSight t known visited) }
    {
        let Level {
            untold,
            scans,
            sources,
        } = self;
        drop(untold);
        let mut needs = by_names(scans).into_vec();
        needs.append(&mut by_names(sources).into_vec())?;
        Ok(Seq::from_vec(needs))
    }
}

// The same nodes in the order of their names.
fn by_names(nodes: Seq<Node>) -> Seq<Node>
    ensures { IsPermutation nodes result }
{
    let mut nodes = nodes.into_vec();
    nodes.sort_unstable_by(|one, other| one.source.cmp(&other.source));
    Seq::from_vec(nodes)
}

// The same of a tool whose base has a value, whatever its maker: the scan node of the own source
// alone, where that was not visited, since no name is told before it.
fn follow<R: Results, V: VisitedNodes>(
    alloc: Global,
    planned: &PlannedGraph<'_>,
    node: &Node,
    tool: &ToolDecl,
    seen: &R,
    visited: &V,
    ahead: &mut Ahead,
) -> Result<Level, Memory>
    requires valued { has_value (values_of (R.results seen.now) (base_of node.now)) ≡ true }
    requires led { (m : MakerValue) → let t = tooled (tool_task planned.now node.now m tool.now) in
        AreLed t (values_of (R.results seen.now)) ahead.old.names }
    ensures led { (m : MakerValue) → let t = tooled (tool_task planned.now node.now m tool.now) in
        AreLed t (values_of (R.results seen.now)) ahead.new.names }
    ensures level { (m : MakerValue) → let t = tooled (tool_task planned.now node.now m tool.now) in
        let known = values_of (R.results seen.now) in
        IfOk result (IsOfLevel t known (V.visited visited.now)) }
{
    if let Some(scan) = tell_own(alloc, planned, node, tool, seen, visited, ahead)? {
        let mut level = Level::new(alloc);
        level.scans.push(scan)?;
        return Ok(level);
    }
    let untold = ahead.untold.as_slice();
    let names = &mut ahead.names;
    let looked = ahead.looked;
    let mut level = look_at_all(
        alloc, planned, node, tool, seen, visited, untold, looked, names,
    )?;
    ahead.looked = ahead.names.len();
    ahead.untold = mem::replace(&mut level.untold, Seq::new(alloc));
    Ok(level)
}

// Tells the own lines once the own scan node was visited. Before that the scan node is given.
fn tell_own<R: Results, V: VisitedNodes>(
    alloc: Global,
    planned: &PlannedGraph<'_>,
    node: &Node,
    tool: &ToolDecl,
    seen: &R,
    visited: &V,
    ahead: &mut Ahead,
) -> Result<Option<Node>, Memory>
    requires valued { has_value (values_of (R.results seen.now) (base_of node.now)) ≡ true }
    requires led { (m : MakerValue) → let t = tooled (tool_task planned.now node.now m tool.now) in
        AreLed t (values_of (R.results seen.now)) ahead.old.names }
    ensures led { (m : MakerValue) → let t = tooled (tool_task planned.now node.now m tool.now) in
        AreLed t (values_of (R.results seen.now)) ahead.new.names }
    ensures scan { (m : MakerValue) → let t = tooled (tool_task planned.now node.now m tool.now) in
        let known = values_of (R.results seen.now) in
        IfOk result (λ found. IfSome found (IsInSight t known (V.visited visited.now))) }
{
    if ahead.own {
        return Ok(None);
    }
    let root = node.source.as_slice();
    if let Some(scan) = unvisited_scan(alloc, planned, node, tool, root, visited)? {
        return Ok(Some(scan));
    }
    let lines = told_lines(alloc, planned, node, tool, root, seen)?;
    ahead.names.add_all(alloc, lines.as_slice())?;
    ahead.own = true;
    Ok(None)
}

// Looks at the names at these places, and at all from one place on, also at those that are found
// meanwhile.
fn look_at_all<R: Results, V: VisitedNodes>(
    alloc: Global,
    planned: &PlannedGraph<'_>,
    node: &Node,
    tool: &ToolDecl,
    seen: &R,
    visited: &V,
    untold: &[usize],
    from: usize,
    names: &mut Names,
) -> Result<Level, Memory>
    requires valued { has_value (values_of (R.results seen.now) (base_of node.now)) ≡ true }
    requires led { (m : MakerValue) → let t = tooled (tool_task planned.now node.now m tool.now) in
        AreLed t (values_of (R.results seen.now)) names.old }
    ensures led { (m : MakerValue) → let t = tooled (tool_task planned.now node.now m tool.now) in
        AreLed t (values_of (R.results seen.now)) names.new }
    ensures level { (m : MakerValue) → let t = tooled (tool_task planned.now node.now m tool.now) in
        let known = values_of (R.results seen.now) in
        IfOk result (IsOfLevel t known (V.visited visited.now)) }
{
    let mut level = Level::new(alloc);
    for place in untold {
        look(
            alloc, planned, node, tool, seen, visited, *place, names, &mut level,
        )?;
    }
    let mut place = from;
    'names: while place < names.len() {
        look(
            alloc, planned, node, tool, seen, visited, place, names, &mut level,
        )?;
        place += 1;
    }
    Ok(level)
}

// Looks at the name at a place: the first need that it brings and that was not visited is put, or
// else it is told its lines.
fn look<R: Results, V: VisitedNodes>(
    alloc: Global,
    planned: &PlannedGraph<'_>,
    node: &Node,
    tool: &ToolDecl,
    seen: &R,
    visited: &V,
    place: usize,
    names: &mut Names,
    level: &mut Level,
) -> Result<(), Memory>
    requires valued { has_value (values_of (R.results seen.now) (base_of node.now)) ≡ true }
    requires led { (m : MakerValue) → let t = tooled (tool_task planned.now node.now m tool.now) in
        AreLed t (values_of (R.results seen.now)) names.old }
    ensures on { (m : MakerValue) → let t = tooled (tool_task planned.now node.now m tool.now) in
        IsLedOn t (values_of (R.results seen.now)) names.old names.new }
    ensures level { (m : MakerValue) → let t = tooled (tool_task planned.now node.now m tool.now) in
        let known = values_of (R.results seen.now) in
        let before = V.visited visited.now in
        OnOk result (IsOfLevel t known before level.old → IsOfLevel t known before level.new) }
{
    let Some(name) = names.get(place) else {
        return Ok(());
    };
    let name = name.as_slice();
    let source = source_node(alloc, name)?;
    if !visited.has(&source) {
        level.untold.push(place)?;
        return level.sources.push(source);
    }
    if let Some(scan) = reached_scan(alloc, planned, node, tool, name, seen, visited)? {
        level.untold.push(place)?;
        return level.scans.push(scan);
    }
    let lines = told_lines(alloc, planned, node, tool, name, seen)?;
    names.add_all(alloc, lines.as_slice())
}

// The scan node of a reached name that is present, where it was not visited. That of the own source
// isn't repeated.
fn reached_scan<R: Results, V: VisitedNodes>(
    alloc: Global,
    planned: &PlannedGraph<'_>,
    node: &Node,
    tool: &ToolDecl,
    name: &[u8],
    seen: &R,
    visited: &V,
) -> Result<Option<Node>, Memory>
    ensures { (m : MakerValue) → let t = tool_task planned.now node.now m tool.now in
        let known = values_of (R.results seen.now) in
        let before = V.visited visited.now in
        IfOk result (λ found. IfSome found (IsReachedScan t known name.now before)) }
{
    if name == node.source.as_slice() {
        return Ok(None);
    }
    if !is_present(alloc, name, seen)? {
        return Ok(None);
    }
    unvisited_scan(alloc, planned, node, tool, name, visited)
}

// The scan node of a name, where it has one that was not visited.
fn unvisited_scan<V: VisitedNodes>(
    alloc: Global,
    planned: &PlannedGraph<'_>,
    node: &Node,
    tool: &ToolDecl,
    name: &[u8],
    visited: &V,
) -> Result<Option<Node>, Memory>
    ensures { let scan = scan_node planned.now node.now tool.now.closure name.now in
        IfOk result (λ found. IfSome found (IsUnseen (V.visited visited.now) scan)) }
{
    let Some(scan) = scan_node(alloc, planned, node, tool, name)? else {
        return Ok(None);
    };
    if visited.has(&scan) {
        return Ok(None);
    }
    Ok(Some(scan))
}
