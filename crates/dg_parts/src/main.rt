//! `dg_parts split INDEX OUT P` writes an index as P index files, `OUT.0` to `OUT.(P-1)`, each with a part of the history.
//! `dg_parts read OUT P` carries out a script, read from standard input, over all of them together: `at TIME COLS`,
//! `list HANDLE` and `release HANDLE`.
#![tactic(auto)]

ghost use Rattle.std.specs.Prelude.{◌≡◌, ◌≤◌, IfOk, length};

use dg_file_disk::FileDisk;
use dg_io::{StdSink, StdSource};
use dg_machine::Limits;
use dg_part_runs::{PartsStatus, serve_parts};
use dg_parts_words::{PartsWords, parts_words};
use dg_program::{WordsFault, hold_standard, keep_freed, words_after_name};
use dg_seed::Seed;
use dg_splitting::{SplitStatus, split};
use std::alloc::{AllocError, Global};
use std::process::ExitCode;
use std::thread::Threads;

/// The exit status where the words are not of the written form.
const WRONG_WORDS: u8 = 2;

fn main(rt: HostRuntime) -> ExitCode {
    let words = match words_after_name(&rt) {
        Ok(words) => words,
        Err(WordsFault::Text) => return wrong_words(&rt),
        Err(WordsFault::Memory) => return no_memory(&rt),
    };
    let said = match parts_words(rt.alloc(), words.as_slice()) {
        Ok(Some(said)) => said,
        Ok(None) => return wrong_words(&rt),
        Err(_) => return no_memory(&rt),
    };
    keep_freed(rt.alloc());
    // Held to the end, so that no file that is opened gets the number of a standard descriptor that is closed.
    let _held = match hold_standard(&rt) {
        Ok(held) => held,
        Err(error) => {
            let code = split_ends(&rt, SplitStatus::DiskFault);
            let _ = eprintln!(rt; "dg_parts: standard input, output and error: {error}");
            return code;
        }
    };
    match said {
        PartsWords::Split { index, out, parts } => split_index(&rt, &rt, index, &out, parts),
        PartsWords::Read { out, parts } => read_parts(&rt, &rt, &out, parts),
    }
}

// Writes the index as parts.
fn split_index<R: Threads + Sync>(
    rt: &HostRuntime,
    threads: &R,
    index: String,
    out: &str,
    parts: u32,
) -> ExitCode
    requires some { 1 ≤ parts }
    requires few { parts ≤ 16 }
{
    let Ok(mut outs) = disks_of(rt, out, parts) else {
        return no_memory(rt);
    };
    let mut disk = FileDisk::new(rt, index);
    let seed = Seed::random(rt);
    let status = split(
        threads,
        rt.alloc(),
        seed,
        &mut disk,
        outs.as_mut_slice(),
        Limits::standard(),
    );
    let code = split_ends(rt, status);
    say_split_reason(rt, status, &disk, &outs);
    code
}

// Carries out the script of standard input over the parts.
fn read_parts<R: Threads + Sync>(rt: &HostRuntime, threads: &R, out: &str, parts: u32) -> ExitCode
    requires some { 1 ≤ parts }
    requires few { parts ≤ 16 }
{
    let Ok(mut disks) = disks_of(rt, out, parts) else {
        return no_memory(rt);
    };
    let mut source = StdSource::new(rt.stdin());
    let mut sink = StdSink::new(rt.stdout());
    let seed = Seed::random(rt);
    let status = serve_parts(
        threads,
        rt.alloc(),
        seed,
        Limits::standard(),
        &mut source,
        &mut sink,
        &mut disks,
    );
    let code = read_ends(rt, status);
    say_read_reason(rt, status, &disks);
    code
}

// The files of the parts, which are opened when they are first used.
fn disks_of<'a>(
    rt: &'a HostRuntime,
    out: &str,
    parts: u32,
) -> Result<Vec<FileDisk<&'a HostRuntime>>, AllocError>
    ensures { IfOk result (λ disks. length disks.items ≡ parts) }
{
    let mut disks = Vec::with_capacity(rt.alloc(), parts as usize)?;
    for part in 0..parts {
        disks.push(FileDisk::new(rt, path_of(rt.alloc(), out, part)?))?;
    }
    Ok(disks)
}

// The path of a part: the word, a dot, and the number.
fn path_of(alloc: Global, out: &str, part: u32) -> Result<String, AllocError> {
    let mut path = String::from_str(alloc, out)?;
    path.push_str(".")?;
    path.push_str(itoa::Buffer::new().format(part))?;
    Ok(path)
}

// Says how the program is called.
fn wrong_words(rt: &HostRuntime) -> ExitCode {
    let _ = eprintln!(rt; "dg_parts: usage: dg_parts split INDEX OUT P | read OUT P");
    ExitCode::from(WRONG_WORDS)
}

fn no_memory(rt: &HostRuntime) -> ExitCode {
    split_ends(rt, SplitStatus::NoMemory)
}

// The code of a status, whose line is said. The code is the answer, also where standard error takes no line.
fn split_ends(rt: &HostRuntime, status: SplitStatus) -> ExitCode {
    if let Some(message) = status.message() {
        let _ = eprintln!(rt; "dg_parts: {message}");
    }
    ExitCode::from(status.code())
}

// The same of a run over parts.
fn read_ends(rt: &HostRuntime, status: PartsStatus) -> ExitCode {
    if let Some(message) = status.message() {
        let _ = eprintln!(rt; "dg_parts: {message}");
    }
    ExitCode::from(status.code())
}

// Says behind the line of the status which file it was, and what was wrong with it.
fn say_split_reason(
    rt: &HostRuntime,
    status: SplitStatus,
    index: &FileDisk<&HostRuntime>,
    outs: &Vec<FileDisk<&HostRuntime>>,
) {
    match status {
        SplitStatus::DiskFault => {
            say_failure(rt, index);
            say_failures(rt, outs);
        }
        SplitStatus::Refused(fault) => {
            let path = index.path();
            let _ = eprintln!(rt; "dg_parts: {path}: {fault}");
        }
        SplitStatus::Exists(part) => {
            let _ = eprintln!(rt;
                "dg_parts: part {part} has an index already, and nothing was written"
            );
        }
        SplitStatus::Full(part, needed) => {
            let _ = eprintln!(rt; "dg_parts: part {part} would have {needed} bytes in use");
        }
        _ => {}
    }
}

// The same of a run over parts.
fn say_read_reason(rt: &HostRuntime, status: PartsStatus, disks: &Vec<FileDisk<&HostRuntime>>) {
    match status {
        PartsStatus::DiskFault => say_failures(rt, disks),
        PartsStatus::Refused(part, fault) => {
            let _ = eprintln!(rt; "dg_parts: part {part}: {fault}");
        }
        PartsStatus::NoIndex(part) => {
            let _ = eprintln!(rt; "dg_parts: part {part} has no index");
        }
        PartsStatus::Mismatch(part) => {
            let _ = eprintln!(rt; "dg_parts: part {part} has other names than the parts before it");
        }
        _ => {}
    }
}

// Says which of the files failed, and why.
fn say_failures(rt: &HostRuntime, disks: &Vec<FileDisk<&HostRuntime>>) {
    for disk in disks {
        say_failure(rt, disk);
    }
}

fn say_failure(rt: &HostRuntime, disk: &FileDisk<&HostRuntime>) {
    if let Some(failure) = disk.failure() {
        let _ = eprintln!(rt; "dg_parts: {failure}");
    }
}
