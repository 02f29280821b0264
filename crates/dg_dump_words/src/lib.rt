//! The words of a command line of `deltagraph-dump [--checked] [--from T] [--until T] INDEX`: the index, whether it is checked,
//! and which changes are written.
#![tactic(auto)]

ghost use Rattle.std.specs.Prelude.{◌≡◌, bytes_eq, codes, map, string_bytes, IfOk};
ghost use Rattle.std.specs.Option.{option_map};
ghost use Rattle.dg_dump_words.specs.WrittenForm.{index_said, is_flag, is_hyphened, said_of, with_bound, with_checked, with_from, with_until, words_behind, words_said};

use dg_grammar::number;
use dg_graph::TIME_MAX;
use std::alloc::{AllocError, Global};

/// The flag that has the index checked.
const CHECKED: &str = "--checked";

/// The option from whose instant on the changes are written.
const FROM: &str = "--from";

/// The option before whose instant the changes are written.
const UNTIL: &str = "--until";

/// The options of a command line.
#[derive(Clone, Copy)]
pub struct Options {
    /// Whether the index is checked.
    pub checked: bool,
    /// The first instant of the changes that are written.
    pub from: Option<u64>,
    /// The instant behind the last one.
    pub until: Option<u64>,
}

/// The words of a command line that are of the written form, `[--checked] [--from T] [--until T] INDEX`.
#[derive(Drop)]
pub struct Words {
    /// The index file.
    pub index: String,
    /// The options before it.
    pub options: Options,
}

/// What the words after the program's name say, and none exactly where they are not of the written form: the options stand
/// in any order, each once at most. A word that begins with a hyphen names no index. `AllocError` for want of memory.
pub fn read_words(alloc: Global, words: &[String]) -> Result<Option<Words>, AllocError>
    ensures { IfOk result (λ read. option_map said_of read ≡ words_said (map string_bytes words.now)) }
{
    let none = Options {
        checked: false,
        from: None,
        until: None,
    };
    read_behind(alloc, none, words)
}

// What the words say behind these options. There are three options at most, each of which is read in a call of its own.
fn read_behind(
    alloc: Global,
    options: Options,
    words: &[String],
) -> Result<Option<Words>, AllocError>
    ensures { IfOk result (λ read. option_map said_of read ≡ words_behind options (map string_bytes words.now)) }
{
    match words {
        [] => Ok(None),
        [index] => said(alloc, index, options),
        [option, value, after @ ..] => {
            if is_flag(option) {
                match with_checked(options) {
                    Some(more) => read_behind(alloc, more, &words[1..]),
                    None => Ok(None),
                }
            } else {
                match with_bound(options, option, value) {
                    Some(more) => read_behind(alloc, more, after),
                    None => Ok(None),
                }
            }
        }
    }
}

// Whether the word is the flag.
fn is_flag(word: &str) -> bool
    ensures { result ≡ is_flag word.now }
{
    word == CHECKED
}

// The options with `--checked`, and none where it is given already.
fn with_checked(options: Options) -> Option<Options>
    ensures { result ≡ with_checked options }
{
    if options.checked {
        return None;
    }
    Some(Options {
        checked: true,
        ..options
    })
}

// The options with this bound, and none where the word is no bound, the bound is given already, or the value is no instant.
fn with_bound(options: Options, word: &str, value: &str) -> Option<Options>
    ensures { result ≡ with_bound options word.now value.now }
{
    if word == FROM {
        return with_from(options, number(value.as_bytes(), 0, TIME_MAX)?);
    }
    if word == UNTIL {
        return with_until(options, number(value.as_bytes(), 0, TIME_MAX)?);
    }
    None
}

// The options with the first instant, and none where it is given already.
fn with_from(options: Options, from: u64) -> Option<Options>
    ensures { result ≡ with_from options from }
{
    if options.from.is_some() {
        return None;
    }
    Some(Options {
        from: Some(from),
        ..options
    })
}

// The options with the instant behind the last one, and none where it is given already.
fn with_until(options: Options, until: u64) -> Option<Options>
    ensures { result ≡ with_until options until }
{
    if options.until.is_some() {
        return None;
    }
    Some(Options {
        until: Some(until),
        ..options
    })
}

// The index of this name, behind the options, and none where the name begins with a hyphen.
fn said(alloc: Global, index: &str, options: Options) -> Result<Option<Words>, AllocError>
    ensures { IfOk result (λ read. option_map said_of read ≡ index_said options index.now) }
{
    if is_hyphened(index) {
        return Ok(None);
    }
    Ok(Some(Words {
        index: String::from_str(alloc, index)?,
        options,
    }))
}

// Whether the word begins with a hyphen.
fn is_hyphened(word: &str) -> bool
    ensures { result ≡ is_hyphened word.now }
{
    match word.as_bytes().first() {
        Some(byte) => *byte == b'-',
        None => false,
    }
}
