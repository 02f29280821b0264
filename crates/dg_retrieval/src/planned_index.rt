//! An index with the planner of its graph: what a retrieval reads from.

ghost use Rattle.std.specs.Prelude.{◌≡◌, [], false, IfOk};
ghost use Rattle.dg_index.specs.OpenedIndex.{event_total};
ghost use Rattle.dg_plan.specs.IndexGraph.{nodes_of};
ghost use Rattle.dg_retrieval.specs.KeptGraph.{index_edges, index_ground, shape_with};

use dg_catalogue::Shape;
use dg_file::Index;
use dg_graph::{Columns, Event};
use dg_history::Params;
use dg_planner::Planner;
use std::alloc::{AllocError, Global};

/// All columns of a record; messages are in no set, and are not read.
pub const ALL_COLUMNS: Columns = Columns {
    nodes_attr: true,
    edges_attr: true,
    transient: true,
};

/// What a retrieval reads from: an index, the planner of its graph, and what is in memory beside it.
#[derive(Drop)]
pub struct PlannedIndex<'a> {
    /// Where memory is taken.
    pub alloc: Global,
    /// The index whose records are read.
    pub index: &'a Index,
    /// How many names the history has; each name that is read is among them.
    pub name_count: u32,
    /// The events behind the last closed list. None is looked at where the records alone are read.
    pub recent: &'a [Event],
    /// The planner of the index's graph in the asked columns.
    pub planner: &'a Planner,
    /// The asked columns.
    pub cols: Columns,
}

/// The shape of an index.
pub fn shape_of(index: &Index) -> Shape
    ensures { result ≡ shape_with index.now.opening.params (event_total index.now.opening.batches) }
{
    let Params { l, k, .. } = index.params();
    let events = index.events_len();
    Shape { l, k, events }
}

/// The planner over the records of an index alone, in these columns: with neither the current graph nor a base.
pub fn record_planner(alloc: Global, index: &Index, cols: Columns) -> Result<Planner, AllocError>
    ensures nodes { IfOk result (λ p. p.nodes ≡ nodes_of (index_ground index.now.opening cols false [])) }
    ensures edges { IfOk result (λ p. p.edges ≡ index_edges index.now.opening cols false []) }
{
    index.facts();
    let shape = shape_of(index);
    Planner::new(alloc, shape, index.catalogue(), cols, &[], false)
}
