//! `deltagraph-dump [--checked] [--from T] [--until T] INDEX` writes to standard output the script that makes the index of
//! that file; with `--from` or `--until` only the lines of the changes from the one instant on and before the other. With
//! `--checked` it refuses a file that is not exactly what its own events determine.
#![tactic(auto)]

ghost use Rattle.std.specs.Prelude.{◌≡◌};
ghost use Rattle.deltagraph_dump.specs.SpanSaid.{span_said};

use dg_dump_words::{Options, Words, read_words};
use dg_dumping::{DumpStatus, Span, dump, dump_span};
use dg_file_disk::FileDisk;
use dg_io::StdSink;
use dg_program::{WordsFault, hold_standard, keep_freed, words_after_name};
use dg_seed::Seed;
use std::process::ExitCode;

/// The exit status where the words are not of the written form.
const WRONG_WORDS: u8 = 2;

/// The least instant.
const FIRST_INSTANT: u64 = 0;

fn main(rt: HostRuntime) -> ExitCode {
    let words = match words_after_name(&rt) {
        Ok(words) => words,
        Err(WordsFault::Text) => return wrong_words(&rt),
        Err(WordsFault::Memory) => return ends(&rt, DumpStatus::NoMemory),
    };
    let Words { index, options } = match read_words(rt.alloc(), words.as_slice()) {
        Ok(Some(words)) => words,
        Ok(None) => return wrong_words(&rt),
        Err(_) => return ends(&rt, DumpStatus::NoMemory),
    };
    keep_freed(rt.alloc());
    // Held to the end, so that no file that is opened gets the number of a standard descriptor that is closed.
    let _held = match hold_standard(&rt) {
        Ok(held) => held,
        Err(error) => {
            let code = ends(&rt, DumpStatus::DiskFault);
            let _ = eprintln!(rt; "deltagraph-dump: standard input, output and error: {error}");
            return code;
        }
    };
    let mut sink = StdSink::new(rt.stdout());
    let seed = Seed::random(&rt);
    let mut disk = FileDisk::new(&rt, index);
    let status = match span_of(options) {
        Some(span) => dump_span(
            &rt,
            rt.alloc(),
            seed,
            &mut disk,
            &mut sink,
            options.checked,
            span,
        ),
        None => dump(&rt, rt.alloc(), seed, &mut disk, &mut sink, options.checked),
    };
    let code = ends(&rt, status);
    say_reason(&rt, status, &disk);
    code
}

// The span of the changes that are written; none where the whole script is.
fn span_of(options: Options) -> Option<Span>
    ensures { result ≡ span_said options }
{
    match options.from {
        Some(from) => Some(Span {
            from,
            until: options.until,
        }),
        None => match options.until {
            Some(until) => Some(Span {
                from: FIRST_INSTANT,
                until: Some(until),
            }),
            None => None,
        },
    }
}

// Says how the program is called.
fn wrong_words(rt: &HostRuntime) -> ExitCode {
    let _ = eprintln!(rt;
        "deltagraph-dump: usage: deltagraph-dump [--checked] [--from T] [--until T] INDEX"
    );
    ExitCode::from(WRONG_WORDS)
}

// The code of a status, whose line is said. The code is the answer, also where standard error takes no line.
fn ends(rt: &HostRuntime, status: DumpStatus) -> ExitCode {
    if let Some(message) = status.message() {
        let _ = eprintln!(rt; "deltagraph-dump: {message}");
    }
    ExitCode::from(status.code())
}

// Says behind the line of the status what was wrong with the index file, where something was.
fn say_reason(rt: &HostRuntime, status: DumpStatus, disk: &FileDisk<&HostRuntime>) {
    let _ = match (status, disk.failure()) {
        (DumpStatus::DiskFault, Some(failure)) => eprintln!(rt; "deltagraph-dump: {failure}"),
        (DumpStatus::Refused(fault), _) => {
            let path = disk.path();
            eprintln!(rt; "deltagraph-dump: {path}: {fault}")
        }
        _ => Ok(()),
    };
}
