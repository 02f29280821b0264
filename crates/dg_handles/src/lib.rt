//! The live handles of a session: what each stands for, and the slot of the pool that has its graph. docs/MODEL.md
//! has the definitions.
#![tactic(auto)]

mod attach;
mod entries;
mod handles;
mod laws;
mod write;

pub use handles::Handles;
pub use laws::{law_tie_is_kept, law_union_of_handles};
