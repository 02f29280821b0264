//! The changes of the command `workload`: a sequence of numbers that follows a seed, and for each index
//! the change that its number leads to. The texts of these changes get their numbers in the list of
//! names of a history. `dg_history/specs/GeneratedChanges.antt` says which change each is.
#![tactic(auto)]

mod changes;
mod generator;
mod request;
mod text_numbers;
mod texts;

pub use changes::generated_changes;
pub use dg_graph::{Change, What};
pub use dg_history::BATCH_LINES_MAX;
pub use dg_names::Names;
pub use dg_text::NAMES_MAX;
pub use generator::Generator;
