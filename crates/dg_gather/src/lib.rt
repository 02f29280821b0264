//! What several parts show as of an instant, as one set: what leads to each of them is composed and applied, and the sets
//! are put together, by halves.
#![tactic(auto)]

mod gathered;
mod union;

pub use gathered::{Gathered, shown};
pub use union::compose_parts;
