//! The lines of refusals.
ghost use Rattle.std.specs.Prelude.{◌≡◌, ◌≤◌, ◌++◌, [], ◌∷◌, map, take, codes, decimal};
ghost use Rattle.dg_machine.specs.ReplyText.{column_word, key_words, refusal_words};
ghost use Rattle.dg_reply.specs.Buffered.{word_bytes};

use crate::reply_buffer::Word::{self, Number, Text};
use crate::reply_line::{ReplyLine, WORDS_MAX, column_letter};
use dg_graph::Column;
use dg_history::Key;
use dg_machine::Refusal;

const REFUSED: Word<'static> = Text(b"refused");

/// The line of a refusal: its number, its name, and what it keeps.
pub(crate) fn refusal_line(refusal: Refusal) -> ReplyLine<'static>
    ensures words { map word_bytes (take result.len result.words) ≡ codes "refused" ∷ refusal_words refusal }
    ensures len { result.len ≤ WORDS_MAX }
{
    match refusal {
        Refusal::Syntax(column) => refused_with_number(b"1", b"syntax", column),
        Refusal::NoIndex => refused(b"2", b"no-index"),
        Refusal::IndexExists => refused(b"3", b"index-exists"),
        Refusal::Parameters => refused(b"4", b"parameters"),
        Refusal::ShortBatch(read, asked) => refused_with_both(
            b"5",
            b"short-batch",
            u64::from(read),
            u64::from(asked),
        ),
        Refusal::BadChange(number, reason) => refused_with_both(
            b"6",
            b"bad-change",
            u64::from(number),
            u64::from(reason),
        ),
        Refusal::OutOfRange(ends) => out_of_range_line(ends),
        Refusal::UnknownHandle(handle) => refused_with_number(b"8", b"unknown-handle", handle),
        Refusal::PoolFull(live, asked) => refused_with_both(
            b"9",
            b"pool-full",
            u64::from(live),
            u64::from(asked),
        ),
        Refusal::InUse(handle) => refused_with_number(b"10", b"in-use", handle),
        Refusal::UnknownNode => refused(b"11", b"unknown-node"),
        Refusal::HistoryFull(held, asked) => {
            refused_with_both(b"12", b"history-full", held, asked)
        }
        Refusal::FileFull(needed, limit) => refused_with_both(b"13", b"file-full", needed, limit),
        Refusal::StoreRead => refused(b"14", b"store-read"),
        Refusal::Damaged(key, column) => damaged_line(key, column),
        Refusal::OutOfMemory => refused(b"16", b"out-of-memory"),
        Refusal::NotAnOverlay(handle) => refused_with_number(b"17", b"not-an-overlay", handle),
        Refusal::LineLong => refused(b"18", b"line-long"),
        Refusal::HandlesSpent => refused(b"19", b"handles-spent"),
        Refusal::AlreadyLoaded => refused(b"20", b"already-loaded"),
        Refusal::NewFormat => refused(b"21", b"new-format"),
        Refusal::OldFormat => refused(b"22", b"old-format"),
        Refusal::UnknownKey => refused(b"23", b"unknown-key"),
        Refusal::NotIndexed => refused(b"24", b"not-indexed"),
        Refusal::AlreadyIndexed => refused(b"25", b"already-indexed"),
        Refusal::IndexesFull => refused(b"26", b"indexes-full"),
    }
}

// A refusal that keeps nothing: its number and its name.
fn refused(number: &'static [u8], name: &'static [u8]) -> ReplyLine<'static>
    ensures words { map word_bytes (take result.len result.words) ≡ codes "refused" ∷ number.now ∷ name.now ∷ [] }
    ensures len { result.len ≤ WORDS_MAX }
{
    ReplyLine::of(&[REFUSED, Text(number), Text(name)])
}

// A refusal that keeps one word.
fn refused_with(
    number: &'static [u8],
    name: &'static [u8],
    kept: Word<'static>,
) -> ReplyLine<'static>
    ensures words { map word_bytes (take result.len result.words) ≡ codes "refused" ∷ number.now ∷ name.now ∷ word_bytes kept.entry ∷ [] }
    ensures len { result.len ≤ WORDS_MAX }
{
    ReplyLine::of(&[REFUSED, Text(number), Text(name), kept])
}

// A refusal that keeps one number.
fn refused_with_number(number: &'static [u8], name: &'static [u8], kept: u32) -> ReplyLine<'static>
    ensures words { map word_bytes (take result.len result.words) ≡ codes "refused" ∷ number.now ∷ name.now ∷ decimal kept ∷ [] }
    ensures len { result.len ≤ WORDS_MAX }
{
    refused_with(number, name, Number(u64::from(kept)))
}

// A refusal that keeps two numbers.
fn refused_with_both(
    number: &'static [u8],
    name: &'static [u8],
    first: u64,
    second: u64,
) -> ReplyLine<'static>
    ensures words { map word_bytes (take result.len result.words) ≡ codes "refused" ∷ number.now ∷ name.now ∷ decimal first ∷ decimal second ∷ [] }
    ensures len { result.len ≤ WORDS_MAX }
{
    ReplyLine::of(&[
        REFUSED,
        Text(number),
        Text(name),
        Number(first),
        Number(second),
    ])
}

// The refusal of an instant that is not in the history: the first and the last instant, where there are any.
fn out_of_range_line(ends: Option<(u64, u64)>) -> ReplyLine<'static>
    ensures words { map word_bytes (take result.len result.words) ≡ codes "refused" ∷ refusal_words (Refusal.OutOfRange ends) }
    ensures len { result.len ≤ WORDS_MAX }
{
    match ends {
        None => refused_with(b"7", b"out-of-range", Text(b"empty")),
        Some((first, last)) => refused_with_both(b"7", b"out-of-range", first, last),
    }
}

// The refusal of a column of a record that is in no spelling.
fn damaged_line(key: Key, column: Column) -> ReplyLine<'static>
    ensures words { map word_bytes (take result.len result.words) ≡ codes "refused" ∷ codes "15" ∷ codes "damaged" ∷ (key_words key ++ column_word column ∷ []) }
    ensures len { result.len ≤ WORDS_MAX }
{
    let mut line = ReplyLine::of(&[REFUSED, Text(b"15"), Text(b"damaged")]);
    line.put_key(key);
    line.put(Text(column_letter(column)));
    line
}
