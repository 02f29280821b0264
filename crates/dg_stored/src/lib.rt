//! A history that is kept beside its index: what a start makes, a batch takes on, and a session keeps. docs/MODEL.md has
//! the definitions.
#![tactic(auto)]

mod stored_history;

pub use stored_history::StoredHistory;
