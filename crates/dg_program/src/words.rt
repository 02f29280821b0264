//! The words of the command line after the program's name.

use std::env;
use std::io::ErrorKind;

/// Why there are no words.
#[derive(Clone, Copy, Debug, PartialEq, Eq)]
pub enum WordsFault {
    /// A word is no text in UTF-8.
    Text,
    /// There was no memory for them.
    Memory,
}

/// The words after the program's own name.
pub fn words_after_name(rt: &HostRuntime) -> Result<Vec<String>, WordsFault> {
    match env::args(rt) {
        Ok(args) => args
            .skip(1)
            .collect(rt.alloc())
            .map_err(|_| WordsFault::Memory),
        Err(error) if error.kind() == ErrorKind::OutOfMemory => Err(WordsFault::Memory),
        Err(_) => Err(WordsFault::Text),
    }
}
