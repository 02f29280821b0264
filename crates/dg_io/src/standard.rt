//! A source and a sink over standard input and output, which tell nothing of their content.
ghost use Rattle.std.specs.Prelude.{◌≡◌, ◌<◌, ◌≤◌, None, length, take, IfOk, OnOk, IfSome, OnErr};
ghost use Rattle.std.specs.Io.KnownBytes.{Consumes, Appends, IsAtEnd};
ghost use Rattle.dg_io.specs.Told.{Gives, grown, CountRose};
ghost use Rattle.dg_io.specs.Standard.{reader_of, read_faults, writer_of, write_faults};

use crate::sink::Sink;
use crate::source::{Failed, Source};
use std::io::{ErrorKind, Read, Write};

/// How many times a call that a signal interrupts is tried before it counts as failed.
const TRIES_MAX: u32 = 1000;

/// A source over a reader, as standard input. It tells nothing of its content.
#[derive(Drop)]
pub struct StdSource<R> {
    inner: R,
    faults: u64,
}

impl<R: Read> StdSource<R> {
    /// A source that reads from `inner`, with no failure so far.
    pub fn new(inner: R) -> StdSource<R>
        ensures reader { reader_of result ≡ inner }
        ensures faults { read_faults result ≡ 0 }
    {
        StdSource { inner, faults: 0 }
    }
}

impl<R: Read> Source for StdSource<R> {
    ghost left = { λ _. None };

    ghost faults = { λ s. read_faults s };

    fn read(&mut self, into: &mut [u8]) -> Result<usize, Failed>
        ensures bound { IfOk result (λ c. c ≤ length into.new) }
        ensures cause { OnErr result (CountRose (read_faults self.old) (read_faults self.new)) }
        ensures counted { read_faults self.old ≤ read_faults self.new }
        ensures bytes { IfOk result (λ c.
            Consumes (R.remaining (reader_of self.old)) (R.remaining (reader_of self.new)) (take c into.new)) }
        ensures nothing { IfOk result (λ c.
            c ≡ 0 → 0 < length into.new → IsAtEnd (R.remaining (reader_of self.new))) }
    {
        match read_through(&mut self.inner, into) {
            Some(count) => Ok(count),
            None => {
                self.faults = self.faults.saturating_add(1);
                Err(Failed)
            }
        }
    }
}

/// A sink over a writer, as standard output. It flushes after each write, and tells nothing of its
/// content.
#[derive(Drop)]
pub struct StdSink<W> {
    inner: W,
    faults: u64,
}

impl<W: Write> StdSink<W> {
    /// A sink that writes to `inner`, with no failure so far.
    pub fn new(inner: W) -> StdSink<W>
        ensures writer { writer_of result ≡ inner }
        ensures faults { write_faults result ≡ 0 }
    {
        StdSink { inner, faults: 0 }
    }
}

impl<W: Write> Sink for StdSink<W> {
    ghost written = { λ _. None };

    ghost faults = { λ s. write_faults s };

    fn write(&mut self, piece: &[u8]) -> Result<usize, Failed>
        ensures bound { IfOk result (λ c. c ≤ length piece.now) }
        ensures some { IfOk result (λ c. 0 < length piece.now → 0 < c) }
        ensures cause { OnErr result (CountRose (write_faults self.old) (write_faults self.new)) }
        ensures counted { write_faults self.old ≤ write_faults self.new }
        ensures bytes { IfOk result (λ c.
            Appends (W.contents (writer_of self.old)) (W.contents (writer_of self.new)) (take c piece.now)) }
    {
        match write_flushed(&mut self.inner, piece) {
            Some(count) => Ok(count),
            None => {
                self.faults = self.faults.saturating_add(1);
                Err(Failed)
            }
        }
    }
}

// Reads into the front of the slice, and answers how many bytes. `None` where the reader failed.
fn read_through<R: Read>(reader: &mut R, into: &mut [u8]) -> Option<usize>
    ensures bound { IfSome result (λ c. c ≤ length into.new) }
    ensures bytes { IfSome result (λ c. Consumes (R.remaining reader.old) (R.remaining reader.new) (take c into.new)) }
    ensures nothing { IfSome result (λ c. c ≡ 0 → 0 < length into.new → IsAtEnd (R.remaining reader.new)) }
{
    for _ in 0..TRIES_MAX {
        match reader.read(into) {
            Ok(count) => return Some(count),
            Err(error) if error.kind() == ErrorKind::Interrupted => {}
            Err(_) => return None,
        }
    }
    None
}

// Writes from the front of the piece and flushes, and answers how many bytes. `None` where the writer
// failed, or took nothing of a piece that is not empty.
fn write_flushed<W: Write>(writer: &mut W, piece: &[u8]) -> Option<usize>
    ensures bound { IfSome result (λ c. c ≤ length piece.now) }
    ensures some { IfSome result (λ c. 0 < length piece.now → 0 < c) }
    ensures bytes { IfSome result (λ c. Appends (W.contents writer.old) (W.contents writer.new) (take c piece.now)) }
{
    for _ in 0..TRIES_MAX {
        match writer.write(piece) {
            Ok(0) if !piece.is_empty() => return None,
            Ok(count) => {
                writer.flush().ok()?;
                return Some(count);
            }
            Err(error) if error.kind() == ErrorKind::Interrupted => {}
            Err(_) => return None,
        }
    }
    None
}
