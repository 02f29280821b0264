//! The parameters of an index, and their ranges.
ghost use Rattle.std.specs.Prelude.{◌≡◌};
ghost use Rattle.dg_history.specs.History.{are_parameters, is_function};

use dg_graph::{Function, SKEW_MAX};

/// The least leaf list size.
pub const LEAF_MIN: u32 = 2;

/// The greatest leaf list size.
pub const LEAF_MAX: u32 = 65_536;

/// The least arity.
pub const ARITY_MIN: u32 = 2;

/// The greatest arity.
pub const ARITY_MAX: u32 = 64;

/// The parameters with which an index is made. They never change.
#[derive(Clone, Copy)]
pub struct Params {
    /// The leaf list size: events from one leaf to the next.
    pub l: u32,
    /// The arity: children of an interior node.
    pub k: u32,
    /// How an interior node's set is made from those of its children.
    pub function: Function,
}

/// Whether the leaf list size and the arity are in their ranges.
pub fn are_parameters(params: Params) -> bool
    ensures { result ≡ are_parameters params.l params.k }
{
    LEAF_MIN <= params.l && params.l <= LEAF_MAX && ARITY_MIN <= params.k && params.k <= ARITY_MAX
}

/// Whether the function's share, where it is a skewed one, is in its range.
pub fn is_function(function: Function) -> bool
    ensures { result ≡ is_function function }
{
    match function {
        Function::Skewed(r) => r <= SKEW_MAX,
        Function::Intersection | Function::Union | Function::Balanced => true,
    }
}
