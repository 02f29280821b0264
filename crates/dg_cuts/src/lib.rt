//! Which entries of a script stand whole in the bytes that were taken of it, where it is cut: definitions, in `specs/`, and
//! a law on them. Nothing here runs.
#![tactic(auto)]

mod laws;

pub use laws::law_whole_entries_are_a_front;
