//! The words of a command line of `deltagraph [--cache N] [--checked] INDEX`, as `clap` reads them.
#![tactic(auto)]

mod form;
mod words;

pub use words::{Words, read_words};
