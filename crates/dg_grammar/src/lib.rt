//! Lines of words: the words of a line and the numbers in them, symbols that stand for words, and how far a line goes along
//! with a row of symbols.
#![tactic(auto)]

mod grammar;
mod words;

pub use grammar::{Prefix, Symbol, has_space_at, longest_prefix, number_prefix, words_prefix};
pub use words::{SPACE, Words, is, number, only_number, with_digit};
