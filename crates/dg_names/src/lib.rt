//! The list of names of a history: distinct texts, numbered from 0 in the order in which they first
//! appear. Events carry the numbers, and the list tells which text a number stands for. Beside it
//! stand the rules for such texts: which may be keys, and which may be names.
#![tactic(auto)]

mod names;
mod text_rules;

pub use dg_text::{KEY_BYTES_MAX, NAME_BYTES_MAX, NAMES_MAX};
pub use names::Names;
pub use text_rules::{is_key, is_name};
