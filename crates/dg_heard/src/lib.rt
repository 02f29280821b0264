//! Which lists of an index may have messages of given instants, how many bytes their columns of messages have, and the
//! events of a column of a list. docs/MODEL.md has the definitions.
#![tactic(auto)]

mod column;
mod laws;
mod lists;

pub use column::read_column;
pub use laws::{law_heard_bytes_are_the_historys, law_histories_are_heard};
pub use lists::{first_open, heard_bytes, list_total, next_heard};
