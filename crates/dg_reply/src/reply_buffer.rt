//! Words and lines on their way to a sink, held until a buffer is full.
ghost use Rattle.std.specs.Prelude.{◌≡◌, ◌+◌, ◌≤◌, ℕ, List, [], ◌++◌, decimal, length, map, OnOk, OnErr};
ghost use Rattle.dg_machine.specs.ReplyText.{text_line};
ghost use Rattle.dg_io.specs.Calls.{FailsToPut, PutsOn, PutsPart};
ghost use Rattle.dg_io.specs.Told.{grown};
ghost use Rattle.dg_reply.specs.Buffered.{IsBuffered, word_bytes};

use dg_io::{Failed, Sink, write_whole};
use dg_text::NAME_BYTES_MAX;
use itoa::{Buffer, write_digits};
use std::marker::Model;

/// The most bytes that are held before a line of a body. A reply of no more bytes is one write.
const HELD_BYTES: usize = 8192;

/// The most bytes of a line of a body: those of a key and a value, and of what stands before them.
pub(crate) const BODY_LINE_BYTES: usize = 2 * NAME_BYTES_MAX + 64;

/// The most bytes that a buffer holds.
const BUFFER_BYTES: usize = HELD_BYTES + BODY_LINE_BYTES;

/// The most bytes of a number's text.
const NUMBER_BYTES: usize = 20;

/// A word of a line of text.
#[derive(Clone, Copy)]
pub enum Word<'a> {
    /// These bytes.
    Text(&'a [u8]),
    /// The decimal text of a number.
    Number(u64),
}

/// Bytes on their way to a sink. They are held until there is no room for more.
#[derive(Drop)]
pub struct ReplyBuffer {
    bytes: [u8; BUFFER_BYTES],
    held: usize,
}

impl Model for ReplyBuffer {
    ghost use Rattle.std.specs.Prelude.{◌≤◌, ℕ, List, take};
    ghost use Rattle.dg_reply.specs.declared.reply_buffer.TheConstants.{BUFFER_BYTES};

    ghost Value = { List ℕ };

    ghost view = { λ buffer. take buffer.held buffer.bytes };

    ghost invariant = { λ buffer. buffer.held ≤ BUFFER_BYTES };
}

impl ReplyBuffer {
    /// A buffer that holds nothing.
    pub fn new() -> ReplyBuffer
        ensures { result ≡ [] }
    {
        ReplyBuffer {
            bytes: [0; BUFFER_BYTES],
            held: 0,
        }
    }

    /// Puts the words behind those held, with a space between each two and a line feed after the last.
    /// `Failed` where a write failed: then a part of what was held and of the line is written.
    pub fn put_line<K: Sink>(&mut self, sink: &mut K, words: &[Word]) -> Result<(), Failed>
        ensures ok { OnOk result (IsBuffered (K.written sink.old) (self.old ++ text_line (map word_bytes words.now)) (K.written sink.new) self.new) }
        ensures err { OnErr result (PutsPart K.Sink sink.old (self.old ++ text_line (map word_bytes words.now)) sink.new) }
        ensures cause { OnErr result (FailsToPut K.Sink sink.old sink.new) }
        ensures counted { PutsOn K.Sink sink.old sink.new }
    {
        let mut between = b"".as_slice();
        for word in words {
            self.put(sink, between)?;
            self.put_word(sink, word)?;
            between = b" ".as_slice();
        }
        self.put(sink, b"\n".as_slice())
    }

    /// Makes room for a line of a body: where there is none, what is held is written. `Failed` where
    /// a write failed: then a part of it is written.
    pub fn make_room<K: Sink>(&mut self, sink: &mut K) -> Result<(), Failed>
        ensures ok { OnOk result (IsBuffered (K.written sink.old) self.old (K.written sink.new) self.new) }
        ensures room { OnOk result (length self.new + BODY_LINE_BYTES ≤ BUFFER_BYTES) }
        ensures err { OnErr result (PutsPart K.Sink sink.old self.old sink.new) }
        ensures cause { OnErr result (FailsToPut K.Sink sink.old sink.new) }
        ensures counted { PutsOn K.Sink sink.old sink.new }
    {
        if self.held <= HELD_BYTES {
            return Ok(());
        }
        self.flush(sink)
    }

    /// Holds a text behind what is held, where there is room.
    #[inline(always)]
    pub fn hold(&mut self, piece: &[u8])
        requires { length self.old + length piece.now ≤ BUFFER_BYTES }
        ensures put { self.new ≡ self.old ++ piece.now }
        ensures len { length self.new ≡ length self.old + length piece.now }
    {
        let end = self.held + piece.len();
        self.bytes[self.held..end].copy_from_slice(piece);
        self.held = end;
    }

    /// Holds the decimal text of a number behind what is held, where there is room.
    pub fn hold_number(&mut self, n: u64)
        requires { length self.old + NUMBER_BYTES ≤ BUFFER_BYTES }
        ensures put { self.new ≡ self.old ++ decimal n }
        ensures len { length self.new ≤ length self.old + NUMBER_BYTES }
    {
        // As many bytes are copied for each number, and those behind the digits are not held: a copy
        // whose length is known needs no call.
        let mut digits = [0; 2 * NUMBER_BYTES];
        let start = write_digits(n, &mut digits, NUMBER_BYTES);
        self.bytes[self.held..self.held + NUMBER_BYTES].copy_from_slice(
            &digits[start..start + NUMBER_BYTES],
        );
        self.held += NUMBER_BYTES - start;
    }

    /// Holds a text and a number behind what is held, where there is room.
    #[inline(always)]
    pub fn hold_with(&mut self, text: &[u8], n: u64)
        requires { length self.old + (length text.now + NUMBER_BYTES) ≤ BUFFER_BYTES }
        ensures put { self.new ≡ self.old ++ (text.now ++ decimal n) }
        ensures len { length self.new ≤ length self.old + (length text.now + NUMBER_BYTES) }
    {
        self.hold(text);
        self.hold_number(n);
    }

    /// Writes what is held. `Failed` where a write failed: then a part of it is written, and all of it is
    /// still held.
    pub fn flush<K: Sink>(&mut self, sink: &mut K) -> Result<(), Failed>
        // All that was held is written.
        ensures ok { OnOk result (K.written sink.new ≡ grown (K.written sink.old) self.old) }
        ensures empty { OnOk result (self.new ≡ []) }

        // A write failed.
        ensures err { OnErr result (PutsPart K.Sink sink.old self.old sink.new) }
        ensures kept { OnErr result (self.new ≡ self.old) }
        ensures cause { OnErr result (FailsToPut K.Sink sink.old sink.new) }
        ensures counted { PutsOn K.Sink sink.old sink.new }
    {
        write_whole(sink, &self.bytes[..self.held])?;
        self.held = 0;
        Ok(())
    }

    fn put_word<K: Sink>(&mut self, sink: &mut K, word: &Word) -> Result<(), Failed>
        ensures ok { OnOk result (IsBuffered (K.written sink.old) (self.old ++ word_bytes word.now) (K.written sink.new) self.new) }
        ensures err { OnErr result (PutsPart K.Sink sink.old (self.old ++ word_bytes word.now) sink.new) }
        ensures cause { OnErr result (FailsToPut K.Sink sink.old sink.new) }
        ensures counted { PutsOn K.Sink sink.old sink.new }
    {
        match word {
            Word::Text(text) => self.put(sink, text),
            Word::Number(n) => {
                let mut digits = Buffer::new();
                self.put(sink, digits.format(*n).as_bytes())
            }
        }
    }

    // Puts bytes behind those held. Where there is no room, what is held is written first.
    fn put<K: Sink>(&mut self, sink: &mut K, piece: &[u8]) -> Result<(), Failed>
        ensures ok { OnOk result (IsBuffered (K.written sink.old) (self.old ++ piece.now) (K.written sink.new) self.new) }
        ensures err { OnErr result (PutsPart K.Sink sink.old (self.old ++ piece.now) sink.new) }
        ensures cause { OnErr result (FailsToPut K.Sink sink.old sink.new) }
        ensures counted { PutsOn K.Sink sink.old sink.new }
    {
        if piece.len() <= self.room() {
            self.hold(piece);
            return Ok(());
        }
        self.flush(sink)?;
        if piece.len() <= self.room() {
            self.hold(piece);
            return Ok(());
        }
        write_whole(sink, piece)
    }

    // The bytes for which there is room.
    fn room(&self) -> usize
        ensures { result + length self.now ≡ BUFFER_BYTES }
    {
        BUFFER_BYTES - self.held
    }
}
