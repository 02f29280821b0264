//! What texts are made of: the lines of a script, the words and numbers of a line, a grammar as a table of verbs, and
//! names with their numbers. The definitions stand in `specs/`; docs/MODEL.md is their prose.
#![tactic(auto)]

mod limits;

pub use limits::{KEY_BYTES_MAX, LINE_BYTES_MAX, NAME_BYTES_MAX, NAMES_MAX, text_limits};
