//! What the words of a command line say: the index, whether it is checked, and how many of its ranges are kept in
//! memory.
ghost use Rattle.std.specs.Prelude.{◌≡◌, ◌≤◌, false, true, map, string_bytes, IfOk, MatchOption, Some};
ghost use Rattle.dg_words.specs.WrittenForm.{cache_max, cache_of, index_of, is_checked, is_written_form};
ghost use Rattle.dg_words.specs.Parsed.{Finds};

use crate::form::{CACHE, CHECKED, INDEX, command};
use clap::ArgMatches;
use clap::error::ErrorKind;
use std::alloc::{AllocError, Global};

/// The words of a command line that are of the written form.
#[derive(Drop)]
pub struct Words {
    /// The index file.
    pub index: String,
    /// Whether the flag `--checked` is given.
    pub checked: bool,
    /// How many ranges of the file are kept in memory at most, up to 65,536. 0 keeps none, and is the number
    /// where `--cache` is not given.
    pub cache: u32,
}

/// What the words after the program's name say, and none exactly where they are not of the written form.
/// `AllocError` for want of memory.
pub fn read_words(alloc: Global, words: &[String]) -> Result<Option<Words>, AllocError>
    ensures read { let given = map string_bytes words.now in IfOk result (λ read. MatchOption read (is_written_form given ≡ false)
        (λ said. (is_written_form given ≡ true) × (index_of given ≡ Some (string_bytes said.index)) × (said.checked ≡ is_checked given)
        × (said.cache ≡ cache_of given) × (said.cache ≤ cache_max))) }
{
    let Some(matches) = parse(alloc, words)? else {
        return Ok(None);
    };
    // A word that is required has its value in each match.
    let index = matches.get_str(INDEX).unwrap();
    Ok(Some(Words {
        index: String::from_str(alloc, index)?,
        checked: matches.get_flag(CHECKED),
        cache: matches.get_one::<u32>(CACHE).unwrap_or(0),
    }))
}

// What clap finds in the words, and none exactly where they are not of the written form. `AllocError` for
// want of memory.
#[tactic(auto, unfolding(crate::specs::WrittenForm::is_written_form))]
fn parse<'a>(alloc: Global, words: &'a [String]) -> Result<Option<ArgMatches<'a>>, AllocError>
    ensures { let given = map string_bytes words.entry.now in IfOk result (λ matches. MatchOption matches (is_written_form given ≡ false)
        (λ found. (is_written_form given ≡ true) × Finds given found)) }
{
    match command(alloc)?.try_get_matches_from(words) {
        Ok(matches) => Ok(Some(matches)),
        Err(error) if error.kind() == ErrorKind::OutOfMemory => Err(AllocError),
        Err(_) => Ok(None),
    }
}
