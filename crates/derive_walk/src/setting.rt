// What an advance goes by.
use crate::given::Given;
use crate::known::Known;
use object_values::Sources;
use path_planner::PlannedGraph;

/// The graph with its plans, the sources, and the outcomes that are kept and that were given.
#[derive(Drop)]
pub(crate) struct Setting<'a, K: Known> {
    pub(crate) planned: &'a PlannedGraph<'a>,
    pub(crate) sources: &'a Sources,
    pub(crate) known: &'a K,
    pub(crate) given: &'a Given,
}
