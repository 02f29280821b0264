//! Writing the parts of a history: which events a part has, how they are cut into batches, and the changes that come to
//! them.
#![tactic(auto)]

mod changes;
mod cuts;
mod owners;

pub use changes::changes_of;
pub use cuts::next_cut;
pub use owners::{belongs, events_of_part};
