//! Lines cut from texts in any chunks, over sources that fail; sinks that take what fits.
ghost use Rattle.std.specs.Prelude.{◌≤◌};

use dg_io::{
    Failed, Line, LineFault, Lines, MemorySink, MemorySource, Sink, Source, StdSink, StdSource,
    write_whole,
};
use std::alloc::{AllocError, Global};
use std::io;
use std::io::{ErrorKind, Read, Write};
use std::process::Abort;
use std::test::Fail;

// More calls than any text of these tests needs.
const CALLS_MAX: u32 = 1000;

// The longest text that is shown as it is.
const SHOWN_MAX: usize = 16;

const NO_LIMIT: u64 = 1_000_000;

// Puts what `next` gives: a text and `/`, or `<its length>/` where it is long, `*` for a line too long, `!` for a failed
// read, `#` for the limit and `.` for the end. Says whether more may follow.
fn put_next<S: Source>(
    alloc: Global,
    lines: &mut Lines,
    source: &mut S,
    all: &mut Vec<u8>,
) -> Result<bool, AllocError> {
    match lines.next(source) {
        Ok(Line::Text(count)) => {
            if count <= SHOWN_MAX {
                all.extend_from_slice(lines.text())?;
            } else {
                all.extend_from_slice(format!(in alloc; "<{count}>")?.as_bytes())?;
            }
            all.push(b'/')?;
            Ok(true)
        }
        Ok(Line::TooLong) => {
            all.push(b'*')?;
            Ok(true)
        }
        Err(LineFault::Read) => {
            all.push(b'!')?;
            Ok(true)
        }
        Ok(Line::End) => {
            all.push(b'.')?;
            Ok(false)
        }
        Err(LineFault::Limit) => {
            all.push(b'#')?;
            Ok(false)
        }
    }
}

// What `next` gives up to the end or the limit.
fn shown<S: Source>(alloc: Global, source: &mut S, limit: u64) -> Result<Vec<u8>, AllocError> {
    let mut lines = Lines::new(limit);
    let mut all = Vec::new(alloc);
    for _ in 0..CALLS_MAX {
        if !put_next(alloc, &mut lines, source, &mut all)? {
            break;
        }
    }
    Ok(all)
}

// The source gives these lines up to the limit.
fn gives<S: Source>(
    abort: &impl Abort,
    alloc: Global,
    source: &mut S,
    limit: u64,
    wanted: &[u8],
) -> Result<(), AllocError> {
    let all = shown(alloc, source, limit)?;
    assert_eq!(abort; all.as_slice(), wanted);
    Ok(())
}

// A text in such chunks, of which some reads fail, gives these lines up to the limit, and so many bytes are left.
fn cuts(
    abort: &impl Abort,
    alloc: Global,
    text: &[u8],
    chunk: usize,
    fails: &[u64],
    limit: u64,
    wanted: &[u8],
    left: usize,
) -> Result<(), AllocError>
    requires { 1 ≤ chunk }
{
    let mut source = MemorySource::new(alloc, text, chunk, fails)?;
    gives(abort, alloc, &mut source, limit, wanted)?;
    assert_eq!(abort; source.left().len(), left);
    Ok(())
}

#[test]
fn cuts_texts_in_any_chunks(rt: HostRuntime) -> Result<(), Fail> {
    let cases: [(&[u8], &[u8]); 8] = [
        (b"", b"."),
        (b"\n", b"/."),
        (b"a\nbc\r\n\r\n\nd", b"a/bc///d/."),
        (b"a\r", b"a\r/."),
        (b"a\n\r", b"a/\r/."),
        (b"a\r\r\n", b"a\r/."),
        (b"a\rb\n", b"a\rb/."),
        (b"a\n\n", b"a//."),
    ];
    for chunk in [1, 7, 100_000] {
        for (text, wanted) in cases {
            cuts(&rt, rt.alloc(), text, chunk, &[], NO_LIMIT, wanted, 0)?;
        }
    }
    Ok(())
}

// So many bytes `x` and then the tail.
fn long_text(alloc: Global, count: usize, tail: &[u8]) -> Result<Vec<u8>, AllocError> {
    let mut text = vec![in alloc; b'x'; count]?;
    text.extend_from_slice(tail)?;
    Ok(text)
}

#[test]
fn cuts_long_lines(rt: HostRuntime) -> Result<(), Fail> {
    let alloc = rt.alloc();
    let cases: [(usize, &[u8], &[u8]); 9] = [
        (4096, b"\nyes", b"<4096>/yes/."),
        (4096, b"\r\nyes", b"<4096>/yes/."),
        (4096, b"", b"<4096>/."),
        (4096, b"\r", b"*."),
        (4096, b"\r\r\nyes", b"*yes/."),
        (4097, b"\nyes", b"*yes/."),
        (4097, b"\r\nyes", b"*yes/."),
        (200_000, b"\nyes", b"*yes/."),
        (200_000, b"", b"*."),
    ];
    for chunk in [997, 100_000] {
        for (count, tail, wanted) in cases {
            let text = long_text(alloc, count, tail)?;
            cuts(&rt, alloc, &text, chunk, &[], NO_LIMIT, wanted, 0)?;
        }
    }
    Ok(())
}

#[test]
fn goes_on_after_a_failed_read(rt: HostRuntime) -> Result<(), Fail> {
    let fails = [1, 4, 5, 7];
    cuts(
        &rt,
        rt.alloc(),
        b"ab\ncd",
        1,
        &fails,
        NO_LIMIT,
        b"!ab/!!!cd/.",
        0,
    )?;
    Ok(())
}

#[test]
fn takes_fewer_bytes_than_the_limit(rt: HostRuntime) -> Result<(), Fail> {
    let cases: [(u64, &[u8], usize); 5] = [
        (0, b"#", 5),
        (2, b"#", 3),
        (3, b"ab/#", 2),
        (5, b"ab/#", 0),
        (6, b"ab/cd/.", 0),
    ];
    for (limit, wanted, left) in cases {
        cuts(&rt, rt.alloc(), b"ab\ncd", 100, &[], limit, wanted, left)?;
    }
    Ok(())
}

// The sink takes the piece, or fails.
fn answers<K: Sink>(abort: &impl Abort, sink: &mut K, piece: &[u8], answer: Result<(), Failed>) {
    assert_eq!(abort; write_whole(sink, piece), answer);
}

fn is_written(abort: &impl Abort, written: &[u8], wanted: &[u8]) {
    assert_eq!(abort; written, wanted);
}

// The sink takes the piece or fails, and then has these bytes.
fn takes(
    abort: &impl Abort,
    sink: &mut MemorySink,
    piece: &[u8],
    answer: Result<(), Failed>,
    written: &[u8],
) {
    answers(abort, sink, piece, answer);
    is_written(abort, sink.written(), written);
}

#[test]
fn a_sink_in_memory_takes_what_fits(rt: HostRuntime) -> Result<(), Fail> {
    let mut sink = MemorySink::new(rt.alloc(), 3, &[])?;
    takes(&rt, &mut sink, b"ok load", Err(Failed), b"ok ");
    assert_eq!(rt; sink.write(b""), Ok(0));
    assert_eq!(rt; sink.write(b"x"), Err(Failed));
    Ok(())
}

#[test]
fn a_sink_in_memory_goes_on_after_a_failed_write(rt: HostRuntime) -> Result<(), Fail> {
    let mut failing = MemorySink::new(rt.alloc(), 8, &[1])?;
    takes(&rt, &mut failing, b"ab", Ok(()), b"ab");
    takes(&rt, &mut failing, b"cd", Err(Failed), b"ab");
    takes(&rt, &mut failing, b"ef", Ok(()), b"abef");
    Ok(())
}

// Gives one byte a call. Every second call is interrupted, and one fails.
#[derive(Drop)]
struct Faulty {
    bytes: &'static [u8],
    calls: u32,
}

impl Read for Faulty {
    fn read(&mut self, into: &mut [u8]) -> io::Result<usize> {
        self.calls = self.calls.saturating_add(1);
        if self.calls == 5 {
            return Err(ErrorKind::Other.into());
        }
        if self.calls % 2 == 1 {
            return Err(ErrorKind::Interrupted.into());
        }
        if self.bytes.is_empty() || into.is_empty() {
            return Ok(0);
        }
        into[0] = self.bytes[0];
        self.bytes = &self.bytes[1..];
        Ok(1)
    }
}

#[test]
fn reads_through_std(rt: HostRuntime) -> Result<(), Fail> {
    let text: &[u8] = b"ab\r\ncd";
    let mut source = StdSource::new(text);
    gives(&rt, rt.alloc(), &mut source, NO_LIMIT, b"ab/cd/.")?;
    let mut faulty = StdSource::new(Faulty {
        bytes: b"ab\ncd",
        calls: 0,
    });
    gives(&rt, rt.alloc(), &mut faulty, NO_LIMIT, b"!ab/cd/.")?;
    Ok(())
}

#[test]
fn writes_through_std(rt: HostRuntime) -> Result<(), Fail> {
    let mut room = [0u8; 5];
    let mut sink = StdSink::new(&mut room[..]);
    answers(&rt, &mut sink, b"ok ", Ok(()));
    answers(&rt, &mut sink, b"load", Err(Failed));
    is_written(&rt, &room, b"ok lo");
    Ok(())
}

// Takes two bytes a write. Every second call is interrupted, and the flush of the given number,
// from 1, fails.
#[derive(Drop)]
struct Slow {
    calls: u32,
    taken: usize,
    flushed: usize,
    flushes: u32,
    fails: u32,
}

impl Write for Slow {
    fn write(&mut self, piece: &[u8]) -> io::Result<usize> {
        self.calls = self.calls.saturating_add(1);
        if self.calls % 2 == 1 {
            return Err(ErrorKind::Interrupted.into());
        }
        let count = piece.len().min(2);
        self.taken = self.taken.saturating_add(count);
        Ok(count)
    }

    fn flush(&mut self) -> io::Result<()> {
        self.flushes = self.flushes.saturating_add(1);
        if self.flushes == self.fails {
            return Err(ErrorKind::Other.into());
        }
        self.flushed = self.taken;
        Ok(())
    }
}

// The write of `reply` where this flush fails: its answer, the bytes flushed and the flushes.
fn flushes(
    abort: &impl Abort,
    fails: u32,
    answer: Result<(), Failed>,
    flushed: usize,
    flushes: u32,
) {
    let mut slow = Slow {
        calls: 0,
        taken: 0,
        flushed: 0,
        flushes: 0,
        fails,
    };
    answers(abort, &mut StdSink::new(&mut slow), b"reply", answer);
    assert_eq!(abort; slow.flushed, flushed);
    assert_eq!(abort; slow.flushes, flushes);
}

#[test]
fn flushes_after_each_write(rt: HostRuntime) {
    flushes(&rt, 0, Ok(()), 5, 3);
    flushes(&rt, 1, Err(Failed), 0, 1);
    flushes(&rt, 2, Err(Failed), 2, 2);
    flushes(&rt, 3, Err(Failed), 4, 3);
}
