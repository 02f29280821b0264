//! What a program of this repository does before its work: it takes its words, holds the standard descriptors, and has the
//! C library keep memory that is freed.
#![tactic(auto)]

mod descriptors;
mod memory;
mod words;

pub use descriptors::{Held, hold_standard};
pub use memory::keep_freed;
pub use words::{WordsFault, words_after_name};
