//! Lines cut from a source, however its bytes come, and what is lost of them: nothing.
ghost use Rattle.std.specs.Prelude.{◌≡◌, ◌≢◌, ◌+◌, ◌-◌, ◌<◌, ◌≤◌, ◌||◌, nat_eq, nat_lt, true, false, IsTrue, List, ℕ, [], length, take, slice_range, None, Some, Ok, Err, IfOk, IfSome, IfNone, OnOk, OnErr, IsErrOf, if◌then◌else◌};
ghost use Rattle.std.specs.Str.Lines.{strip_carriage_return};
ghost use Rattle.dg_io.specs.Calls.{FailsToRead, TakesFrom};
ghost use Rattle.dg_io.specs.Told.{Gives, IsAtEnd};
ghost use Rattle.dg_io.specs.Feed.{has_feed, IsFirstFeed, FindsFeed};
ghost use Rattle.dg_io.specs.declared.lines.LineFault.TheVariants.{Read};
ghost use Rattle.dg_io.specs.LinesState.{TookLine, TookNone, LinesState, told, ahead, to_come, LineComes, NeedsByte, EndsWith, Cuts};

use crate::source::{Failed, Source};
use dg_text::LINE_BYTES_MAX;
use memchr::memchr;
use std::marker::Model;
use thiserror::Error;

/// The bytes of the buffer. At most `WAITING_BYTES_MAX` of them are held at a read.
const BUFFER_BYTES: usize = 16_384;

/// The most bytes that are held where no line feed is among them: those of a longest line, and the
/// carriage return that may be dropped. With more the line is too long, however it goes on.
const WAITING_BYTES_MAX: usize = LINE_BYTES_MAX + 1;

const LINE_FEED: u8 = b'\n';

const CARRIAGE_RETURN: u8 = b'\r';

/// What a call of `Lines::next` gives.
#[derive(Clone, Copy, PartialEq, Eq)]
pub enum Line {
    /// A line of so many bytes, at most `LINE_BYTES_MAX`. `Lines::text` gives them.
    Text(usize),
    /// A line of more than `LINE_BYTES_MAX` bytes, which is dropped whole.
    TooLong,
    /// The end of input: no line is left.
    End,
}

/// Why a call of `Lines::next` gives no line. Nothing is lost: a later call goes on with the line.
#[derive(Clone, Copy, Debug, PartialEq, Eq, Error)]
pub enum LineFault {
    /// A read of the source failed.
    #[error("a read of the source failed")]
    Read,
    /// Another byte is needed, and as many as the limit allows were taken.
    #[error("another byte is needed, and as many as the limit allows were taken")]
    Limit,
}

impl From<Failed> for LineFault {
    ghost from_gives = { λ _ fault. fault ≡ Read };

    fn from(_failure: Failed) -> LineFault {
        LineFault::Read
    }
}

/// Cuts the bytes of a source into lines. A line ends before a line feed or at the end of input. One
/// carriage return before a line feed is dropped, and a last line of no bytes is none.
#[derive(Drop)]
pub struct Lines {
    buffer: [u8; BUFFER_BYTES],
    // The bytes held are those from `start` up to `end`. None of those below `scanned` is a line feed.
    start: usize,
    scanned: usize,
    end: usize,
    text_start: usize,
    text_end: usize,
    long: bool,
    ended: bool,
    taken: u64,
    limit: u64,
}

impl Model for Lines {
    ghost use Rattle.std.specs.Prelude.{slice_range};
    ghost use Rattle.dg_io.specs.LinesState.{LinesState};

    ghost Value = { LinesState };

    ghost use Rattle.dg_io.specs.Buffer.{IsBufferWhole};

    ghost view = { λ l. record {
      held = slice_range l.buffer l.start l.end;
      long = l.long;
      ended = l.ended;
      taken = l.taken;
      limit = l.limit;
      text = slice_range l.buffer l.text_start l.text_end;
    } };

    ghost invariant = { IsBufferWhole };
}

impl Lines {
    /// A cutter that holds nothing, and takes at most `limit` bytes in all. It takes no memory.
    pub fn new(limit: u64) -> Lines
        ensures { result ≡ record { held = []; long = false; ended = false; taken = 0; limit = limit; text = [] } }
    {
        Lines {
            buffer: [0; BUFFER_BYTES],
            start: 0,
            scanned: 0,
            end: 0,
            text_start: 0,
            text_end: 0,
            long: false,
            ended: false,
            taken: 0,
            limit,
        }
    }

    /// The bytes of the last `Line::Text`, until the next call of `next`.
    pub fn text(&self) -> &[u8]
        ensures { result.now ≡ self.now.text }
    {
        &self.buffer[self.text_start..self.text_end]
    }

    /// The next line. It reads from the source only where no whole line is held, and gives a line once
    /// it is whole in the bytes that were taken: whatever the source goes on with, it is the same.
    ///
    /// `LineFault::Read` where another byte is needed and a read failed, `LineFault::Limit` where another
    /// byte is needed and as many as the limit allows were taken. A byte is needed where no whole line is
    /// held and no read has given the end of input. After a fault a later call goes on with the same line.
    pub fn next<S: Source>(&mut self, source: &mut S) -> Result<Line, LineFault>
        ensures line { IfOk result (λ line. LineComes line
            (told self.old (S.left source.old)) (told self.new (S.left source.new)) self.new.text) }
        ensures progress { IfOk result (λ line. line ≢ Line.End → to_come self.new < to_come self.old) }
        ensures end { result ≡ Ok Line.End → IsTrue self.new.ended }
        ensures whole { IfOk result (λ line. TookLine line self.old (S.left source.old) self.new (S.left source.new)) }

        // errors
        ensures kept { OnErr result (TookNone self.old (S.left source.old) self.new (S.left source.new)) }
        ensures err { OnErr result (told self.old (S.left source.old) ≡ told self.new (S.left source.new)) }
        ensures read { IsErrOf result LineFault.Read → FailsToRead S.Source source.old source.new }
        ensures limit { IsErrOf result LineFault.Limit → self.new.taken ≡ self.new.limit }
        ensures needs { OnErr result (NeedsByte self.new) }
        ensures due { self.old.taken ≡ self.old.limit → NeedsByte self.old
            → result ≡ Err LineFault.Limit }

        // frame
        ensures advances { TakesFrom S.Source self.old source.old self.new source.new }
        ensures within { (self.new.taken ≤ self.new.limit)
            × (IsTrue self.new.ended → self.new.taken < self.new.limit) }
        ensures quiet { (NeedsByte self.old → ⊥)
            → (S.left source.new ≡ S.left source.old) × (S.faults source.new ≡ S.faults source.old) }
    {
        loop {
            if let Some(line) = self.cut() {
                return Ok(line);
            }
            self.fill(source)?;
        }
    }

    // The line at the front of the bytes held, or none where another byte is needed for it.
    fn cut(&mut self) -> Option<Line>
        ensures some { IfSome result (λ line. Cuts line self.old self.new) }
        ensures ready { IfSome result (λ _. NeedsByte self.old → ⊥) }
        ensures none { IfNone result (NeedsByte self.old × (self.new ≡ self.old)) }
        ensures within { (self.new.taken ≤ self.new.limit)
            × (IsTrue self.new.ended → self.new.taken < self.new.limit) }
    {
        let held = &self.buffer[self.start..self.end];
        match find_feed(held, self.scanned - self.start) {
            Some(index) => Some(self.cut_at(index)),
            None if self.ended => Some(self.cut_last()),
            None => None,
        }
    }

    // The line before the line feed at this index of the bytes held.
    fn cut_at(&mut self, index: usize) -> Line
        requires { IsFirstFeed self.old.held index }
        ensures { Cuts result self.old self.new }
    {
        let feed = self.start + index;
        let count = text_len(&self.buffer[self.start..feed]);
        let long = self.long;
        self.text_start = self.start;
        self.text_end = self.start + count;
        self.start = feed + 1;
        self.scanned = feed + 1;
        self.long = false;
        line_of(long, count)
    }

    // The line at the end of input, or the end.
    fn cut_last(&mut self) -> Line
        requires ended { self.old.ended ≡ true }
        requires no_feed { has_feed self.old.held ≡ false }
        ensures { Cuts result self.old self.new }
    {
        let count = self.end - self.start;
        let long = self.long;
        self.text_start = self.start;
        self.text_end = self.end;
        self.start = self.end;
        self.scanned = self.end;
        self.long = false;
        last_line(long, count)
    }

    // One read behind the bytes held.
    fn fill<S: Source>(&mut self, source: &mut S) -> Result<(), LineFault>
        requires { NeedsByte self.old }
        ensures told { told self.old (S.left source.old) ≡ told self.new (S.left source.new) }
        ensures took { TookNone self.old (S.left source.old) self.new (S.left source.new) }
        ensures falls { OnOk result ((self.new.limit - self.new.taken) + (if self.new.ended then 0 else 1)
            < self.old.limit - self.old.taken + 1) }

        // errors
        ensures read { IsErrOf result LineFault.Read → FailsToRead S.Source source.old source.new }
        ensures limit { IsErrOf result LineFault.Limit → self.new.taken ≡ self.new.limit }
        ensures needs { OnErr result (NeedsByte self.new) }
        ensures due { self.old.taken ≡ self.old.limit → result ≡ Err LineFault.Limit }

        // frame
        ensures advances { TakesFrom S.Source self.old source.old self.new source.new }
        ensures at_end { EndsWith self.new (S.left source.new) }
        ensures within { (self.new.taken ≤ self.new.limit)
            × (IsTrue self.new.ended → self.new.taken < self.new.limit) }
    {
        let allowed = self.limit - self.taken;
        if allowed == 0 {
            return Err(LineFault::Limit);
        }
        self.drop_long();
        let held = self.end - self.start;
        move_to_front(&mut self.buffer, self.start, self.end);
        self.start = 0;
        self.end = held;
        self.scanned = held;
        self.text_start = 0;
        self.text_end = 0;
        let count = read_behind(source, &mut self.buffer, held, allowed)?;
        self.ended = count == 0;
        self.end += count;
        self.taken += count as u64;
        Ok(())
    }

    // Drops the bytes held where they belong to a line that is too long, however it goes on.
    fn drop_long(&mut self)
        requires { NeedsByte self.old }
        ensures ahead { (left : List ℕ) → ahead self.old left ≡ ahead self.new left }
        ensures kept { to_come self.new ≤ to_come self.old }
        ensures needs { NeedsByte self.new }
        ensures waiting { length self.new.held ≤ WAITING_BYTES_MAX }
        ensures taken { self.new.taken ≡ self.old.taken }
        ensures limit { self.new.limit ≡ self.old.limit }
    {
        if self.long || self.end - self.start > WAITING_BYTES_MAX {
            self.long = true;
            self.start = self.end;
            self.scanned = self.end;
        }
    }
}

// The answer for a line of so many bytes, or of that many more than were dropped.
fn line_of(long: bool, count: usize) -> Line
    ensures { result ≡ (if long || nat_lt LINE_BYTES_MAX count
        then Line.TooLong else Line.Text count) }
{
    if long || count > LINE_BYTES_MAX {
        Line::TooLong
    } else {
        Line::Text(count)
    }
}

// The same for the bytes at the end of input.
fn last_line(long: bool, count: usize) -> Line
    ensures { result ≡ (if long then Line.TooLong else if nat_eq count 0 then Line.End
        else if nat_lt LINE_BYTES_MAX count then Line.TooLong else Line.Text count) }
{
    if count == 0 && !long {
        Line::End
    } else {
        line_of(long, count)
    }
}

// The index of the first line feed. The bytes below `scanned` are none.
fn find_feed(held: &[u8], scanned: usize) -> Option<usize>
    requires within { scanned ≤ length held.now }
    requires no_feed { has_feed (take scanned held.now) ≡ false }
    ensures { FindsFeed held.now result }
{
    match memchr(LINE_FEED, &held[scanned..]) {
        Some(index) => Some(scanned + index),
        None => None,
    }
}

// The length of a line less the carriage return at its end.
fn text_len(line: &[u8]) -> usize
    ensures bound { result ≤ length line.now }
    ensures value { take result line.now ≡ strip_carriage_return line.now }
{
    match line {
        [front @ .., CARRIAGE_RETURN] => front.len(),
        _ => line.len(),
    }
}

// Moves the bytes from `start` up to `end` to the front.
fn move_to_front(buffer: &mut [u8], start: usize, end: usize)
    requires order { start ≤ end }
    requires within { end ≤ length buffer.old }
    ensures { take (end - start) buffer.new ≡ slice_range buffer.old start end }
{
    if start > 0 {
        buffer.copy_within(start..end, 0);
    }
}

// Reads at most `allowed` bytes behind the first `held` bytes of the buffer, and answers how many.
fn read_behind<S: Source>(
    source: &mut S,
    buffer: &mut [u8],
    held: usize,
    allowed: u64,
) -> Result<usize, Failed>
    requires room { held < length buffer.old }
    requires allowed { 0 < allowed }
    ensures bound { IfOk result (λ c. (held + c ≤ length buffer.new) × (c ≤ allowed)) }
    ensures kept { take held buffer.new ≡ take held buffer.old }
    ensures given { IfOk result (λ c.
        Gives (S.left source.old) (slice_range buffer.new held (held + c)) (S.left source.new)) }
    ensures end { IfOk result (λ c. c ≡ 0 → IsAtEnd (S.left source.old)) }
    ensures err { OnErr result (S.left source.new ≡ S.left source.old) }
    ensures cause { OnErr result (FailsToRead S.Source source.old source.new) }
    ensures counted { S.faults source.old ≤ S.faults source.new }
{
    let free = buffer.len() - held;
    let room = if allowed < free as u64 {
        allowed as usize
    } else {
        free
    };
    let end = held + room;
    source.read(&mut buffer[held..end])
}
