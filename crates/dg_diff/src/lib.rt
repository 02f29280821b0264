//! The differential functions: which elements an interior node of the index has. `inward` makes the node by exact deltas
//! between its children, as a batch does, and makes no whole set. `combine` makes it of the sets of its children; the program
//! does not call it. docs/MODEL.md has the definitions.
#![tactic(auto)]

mod differential;
mod hash;
mod interior;

pub use dg_graph::Function;
pub use differential::combine;
pub use hash::part;
pub use interior::inward;
