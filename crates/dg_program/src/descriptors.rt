//! The standard descriptors, where the program is started with some of them closed.

use std::fs::{File, Files};
use std::io;
use std::os::fd::AsRawFd;

// Standard input, output and error have the numbers up to this one.
const STANDARD_ERROR: i32 = 2;

// Folders are there wherever a program runs, and once opened for reading they can neither be read nor written. The first
// may be closed to who runs the program, and the second never is.
const FOLDERS: [&str; 2] = ["/", "/proc/self"];

/// Files that take the numbers of standard input, output and error where these are closed.
#[derive(Drop)]
pub struct Held<F> {
    _input: F,
    _output: F,
    _error: F,
}

/// Holds the descriptors 0 to 2, where one of them is closed. A file gets the least number that is free, so a program
/// that is started with one of these closed would else read its script from its own index, or write its replies into it.
/// A read or a write of a descriptor that was closed fails, as of any that cannot be read or written.
pub fn hold_standard<R: Files>(rt: &R) -> io::Result<Option<Held<R::File>>> {
    if are_standard_open(rt)? {
        return Ok(None);
    }
    Ok(Some(Held {
        _input: open_folder(rt)?,
        _output: open_folder(rt)?,
        _error: open_folder(rt)?,
    }))
}

// Whether the descriptors 0 to 2 are all open: then a pipe, which no right is needed for, gets greater numbers.
fn are_standard_open<R: Files>(rt: &R) -> io::Result<bool> {
    let (reader, _writer) = io::pipe(rt)?;
    Ok(reader.as_raw_fd() > STANDARD_ERROR)
}

// Opens the first of the folders that may be read.
fn open_folder<R: Files>(rt: &R) -> io::Result<R::File> {
    let [first, second] = FOLDERS;
    File::open(rt, first).or_else(|_| File::open(rt, second))
}
