//! The events of an index, record by record in their order: those of its closed lists, and behind them those of the pieces of
//! its last batches. No more than one record is held.
#![tactic(auto)]

mod place;
mod stretch;

pub use place::BatchPlace;
pub use stretch::Stretch;
