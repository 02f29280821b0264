//! The laws of handles over a pool. The functions do nothing: their clauses are the laws.

ghost use Rattle.dg_handles.specs.Handles.{TieIsKept, UnionOfHandles};

/// A pool whose slots have the same graphs is tied to the same slots. Does nothing.
pub fn law_tie_is_kept()
    ensures { TieIsKept }
{}

/// The union of a pool is that of the current graph and the graphs of the handles. Does nothing.
pub fn law_union_of_handles()
    ensures { UnionOfHandles }
{}
