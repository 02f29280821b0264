//! Joining the three columns of a delta's record to the delta.

ghost use Rattle.std.specs.Prelude.{◌≡◌, IfOk};
ghost use Rattle.dg_graph.specs.Composition.{IsDelta};
ghost use Rattle.dg_columns.specs.ReadFits.{IsIn, joined_columns};

use dg_delta::Delta;
use dg_graph::Column;
use std::alloc::AllocError;

/// The delta of three columns, whose elements follow one another in the order of elements. No element
/// is compared. An `Err` says that memory ran out.
pub fn join(structure: Delta, node_attrs: &Delta, edge_attrs: &Delta) -> Result<Delta, AllocError>
    requires structure { IsIn Column.Structure structure }
    requires node_attrs { IsIn Column.NodeAttr node_attrs.now }
    requires edge_attrs { IsIn Column.EdgeAttr edge_attrs.now }
    ensures { IfOk result (λ d. d ≡ joined_columns structure node_attrs.now edge_attrs.now) }
{
    rises(&structure);
    rises(node_attrs);
    rises(edge_attrs);
    structure.join(node_attrs)?.join(edge_attrs)
}

// Tells the proofs that the two sets rise and share no element. It does nothing.
fn rises(delta: &Delta)
    ensures { IsDelta delta.now }
{
    delta.minus();
}
