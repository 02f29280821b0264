//! `deltagraph [--cache N] [--checked] INDEX` carries out a script of commands, read from standard input, over the
//! index file of that name, and writes the reply to each of them. With `--checked` it refuses a file that is
//! not exactly what its own events determine; with `--cache N` it keeps up to N ranges of the file in memory.
#![tactic(auto)]

ghost use Rattle.std.specs.Prelude.{◌≡◌, [], IfSome};

#[cfg(test)]
mod tests;

use dg_cached_disk::{CachedDisk, RangeCache};
use dg_file_disk::FileDisk;
use dg_io::{StdSink, StdSource};
use dg_program::{WordsFault, hold_standard, keep_freed, words_after_name};
use dg_run::{Status, serve};
use dg_seed::Seed;
use dg_words::{Words, read_words};
use std::num::NonZeroUsize;
use std::process::ExitCode;

fn main(rt: HostRuntime) -> ExitCode {
    let words = match words_after_name(&rt) {
        Ok(words) => words,
        Err(WordsFault::Text) => return ends(&rt, Status::Words),
        Err(WordsFault::Memory) => return ends(&rt, Status::NoMemory),
    };
    let read = match read(&rt, words.as_slice()) {
        Ok(read) => read,
        Err(status) => return ends(&rt, status),
    };
    keep_freed(rt.alloc());
    // Held to the end, so that no file that is opened gets the number of a standard descriptor that is closed.
    let _held = match hold_standard(&rt) {
        Ok(held) => held,
        Err(error) => {
            let code = ends(&rt, Status::DiskFault);
            let _ = eprintln!(rt; "deltagraph: standard input, output and error: {error}");
            return code;
        }
    };
    let mut source = StdSource::new(rt.stdin());
    let mut sink = StdSink::new(rt.stdout());
    let ranges = ranges_of(&rt, read.cache);
    let seed = Seed::random(&rt);
    let mut file = FileDisk::new(&rt, read.index);
    let Some(ranges) = ranges else {
        let status = serve(
            &rt,
            rt.alloc(),
            seed,
            words.as_slice(),
            &mut source,
            &mut sink,
            &mut file,
        );
        return ends_over(&rt, status, &file);
    };
    let mut disk = CachedDisk::new(rt.alloc(), file, ranges);
    let status = serve(
        &rt,
        rt.alloc(),
        seed,
        words.as_slice(),
        &mut source,
        &mut sink,
        &mut disk,
    );
    ends_over(&rt, status, disk.disk())
}

// What the words say. `Status::Words` where they are not of the written form, and `Status::NoMemory` for want of memory.
fn read(rt: &HostRuntime, words: &[String]) -> Result<Words, Status> {
    match read_words(rt.alloc(), words) {
        Ok(Some(read)) => Ok(read),
        Ok(None) => Err(Status::Words),
        Err(_) => Err(Status::NoMemory),
    }
}

// Room for so many ranges of the file. None where it is for no range, or for want of memory, which then refuses nothing.
fn ranges_of(rt: &HostRuntime, most: u32) -> Option<RangeCache>
    ensures none { IfSome result (λ ranges. ranges.ranges ≡ []) }
    ensures most { IfSome result (λ ranges. ranges.most ≡ most) }
{
    let most = NonZeroUsize::new(most as usize)?;
    RangeCache::new(rt.alloc(), most).ok()
}

// Says the line of the status and the reason behind it, and is its code.
fn ends_over(rt: &HostRuntime, status: Status, file: &FileDisk<&HostRuntime>) -> ExitCode {
    let code = ends(rt, status);
    say_reason(rt, status, file);
    code
}

// The code of a status, whose line is said. The code is the answer, also where standard error takes no line.
fn ends(rt: &HostRuntime, status: Status) -> ExitCode {
    if let Some(message) = status.message() {
        let _ = eprintln!(rt; "deltagraph: {message}");
    }
    ExitCode::from(status.code())
}

// Says behind the line of the status what was wrong with the index file, where something was.
fn say_reason(rt: &HostRuntime, status: Status, file: &FileDisk<&HostRuntime>) {
    let _ = match (status, file.failure()) {
        (Status::DiskFault, Some(failure)) => eprintln!(rt; "deltagraph: {failure}"),
        (Status::Refused(fault), _) => {
            let path = file.path();
            eprintln!(rt; "deltagraph: {path}: {fault}")
        }
        _ => Ok(()),
    };
}
