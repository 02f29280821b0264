//! The words of a command line of `dg_parts split INDEX OUT P` and `dg_parts read OUT P`.
#![tactic(auto)]

ghost use Rattle.std.specs.Prelude.{◌≡◌, ◌∷◌, [], map, string_bytes, ◌≤◌, IfOk, IfSome};
ghost use Rattle.std.specs.Option.{option_map};
ghost use Rattle.dg_text.specs.Words.{number};
ghost use Rattle.dg_parts_words.specs.PartsForm.{full, parts_form, parts_of, parts_said, said_of};

use dg_grammar::{is, number};
use std::alloc::{AllocError, Global};

/// The most parts of a history.
pub const PARTS_MAX: u64 = 16;

/// What the words of a command line say.
#[derive(Drop)]
pub enum PartsWords {
    /// The index is written as parts, each in a file of its own.
    Split {
        /// The index file.
        index: String,
        /// What the names of the parts begin with, in front of a dot and the part's number.
        out: String,
        /// How many parts there are, 1 to 16.
        parts: u32,
    },
    /// A script is answered over the parts.
    Read {
        /// What the names of the parts begin with, in front of a dot and the part's number.
        out: String,
        /// How many parts there are, 1 to 16.
        parts: u32,
    },
}

/// What the words after the program's name say, and none exactly where they have neither form. `AllocError` for want of
/// memory.
pub fn parts_words(alloc: Global, words: &[String]) -> Result<Option<PartsWords>, AllocError>
    ensures form { IfOk result (λ read. option_map said_of read ≡ parts_form (map string_bytes words.now)) }
    ensures range { IfOk result (λ read. IfSome read (λ said. (1 ≤ parts_said said) × (parts_said said ≤ 16))) }
{
    match words {
        [verb, index, out, parts] => split_words(alloc, verb, index, out, parts),
        [verb, out, parts] => read_words(alloc, verb, out, parts),
        _ => Ok(None),
    }
}

// What `split INDEX OUT P` says.
fn split_words(
    alloc: Global,
    verb: &String,
    index: &String,
    out: &String,
    parts: &String,
) -> Result<Option<PartsWords>, AllocError>
    ensures form { IfOk result (λ read. option_map said_of read ≡ parts_form (string_bytes verb.now ∷ string_bytes index.now ∷ string_bytes out.now ∷ string_bytes parts.now ∷ [])) }
    ensures range { IfOk result (λ read. IfSome read (λ said. (1 ≤ parts_said said) × (parts_said said ≤ 16))) }
{
    if !is(verb.as_bytes(), b"split") || index.is_empty() || out.is_empty() {
        return Ok(None);
    }
    match number(parts.as_bytes(), 1, PARTS_MAX) {
        Some(parts) => Ok(Some(PartsWords::Split {
            index: String::from_str(alloc, index)?,
            out: String::from_str(alloc, out)?,
            parts: parts as u32,
        })),
        None => Ok(None),
    }
}

// What `read OUT P` says.
fn read_words(
    alloc: Global,
    verb: &String,
    out: &String,
    parts: &String,
) -> Result<Option<PartsWords>, AllocError>
    ensures form { IfOk result (λ read. option_map said_of read ≡ parts_form (string_bytes verb.now ∷ string_bytes out.now ∷ string_bytes parts.now ∷ [])) }
    ensures range { IfOk result (λ read. IfSome read (λ said. (1 ≤ parts_said said) × (parts_said said ≤ 16))) }
{
    if !is(verb.as_bytes(), b"read") || out.is_empty() {
        return Ok(None);
    }
    match number(parts.as_bytes(), 1, PARTS_MAX) {
        Some(parts) => Ok(Some(PartsWords::Read {
            out: String::from_str(alloc, out)?,
            parts: parts as u32,
        })),
        None => Ok(None),
    }
}
