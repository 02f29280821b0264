//! The words of a line, and the numbers in them.
ghost use Rattle.std.specs.Prelude.{◌≡◌, ◌≢◌, ℕ, ◌+◌, ◌*◌, ◌-◌, ◌<◌, ◌≤◌, ◌^◌, List, [], ◌∷◌, length, decimal, Option, Some, None, IfSome, IfNone, IsTrue, ◌↔◌, MatchOption, slice_index};
ghost use Rattle.std.specs.List.{position};
ghost use Rattle.dg_text.specs.Words.{words, number};
ghost use Rattle.dg_text.specs.Verbs.{is_word, one};
ghost use Rattle.std.specs.Option.{option_map};
ghost use Rattle.dg_grammar.specs.Space.{is_space, rest_of};

use std::marker::Model;

/// What is found; where nothing is, the function that looks for it has no value. This is `?` at an
/// `Option` without the two calls that `?` is: the readers of words are many, and a proof follows each
/// call.
macro_rules! found {
    ($option:expr) => {
        match $option {
            Some(found) => found,
            None => return None,
        }
    };
}

/// What parts two words of a line.
pub const SPACE: u8 = b' ';

/// The base of the numbers of a script.
const TEN: u64 = 10;

/// The words of a line that are still to be read. Exactly one space parts two words.
#[derive(Drop)]
pub struct Words<'a> {
    rest: &'a [u8],
    ended: bool,
}

impl<'a> Model for Words<'a> {
    ghost use Rattle.std.specs.Prelude.{ℕ, List, [], if◌then◌else◌};
    ghost use Rattle.dg_text.specs.Words.{words};

    ghost Value = { List (List ℕ) };

    ghost view = { λ w. if w.ended then [] else words w.rest.now };
}

impl<'a> Words<'a> {
    /// All words of a line. A line without a space is one word, which may be empty.
    pub fn of(line: &'a [u8]) -> Words<'a>
        ensures { result ≡ words line.now }
    {
        Words {
            rest: line,
            ended: false,
        }
    }

    /// The next word, or none at the end of the line.
    pub fn next(&mut self) -> Option<&'a [u8]>
        ensures { MatchOption result (self.old ≡ []) (λ w. self.old ≡ w.now ∷ self.new) }
    {
        if self.ended {
            return None;
        }
        let rest = self.rest;
        match find_space(rest) {
            Some(index) => {
                self.rest = &rest[index + 1..];
                Some(&rest[..index])
            }
            None => {
                self.ended = true;
                Some(rest)
            }
        }
    }

    /// The rest of the line: the words that are left, with a space between each two. There is none at
    /// the end of the line.
    pub fn rest(self) -> Option<&'a [u8]>
        ensures { option_map (λ text. text.now) result ≡ rest_of self.entry }
    {
        if self.ended { None } else { Some(self.rest) }
    }

    /// Whether no word is left: `None` where one is.
    pub fn end(self) -> Option<()>
        ensures { MatchOption result (self.entry ≢ []) (λ nothing. self.entry ≡ []) }
    {
        if self.ended { Some(()) } else { None }
    }
}

// The index of the first space.
fn find_space(line: &[u8]) -> Option<usize>
    ensures { result ≡ position is_space line.now }
{
    line.iter().position(|byte| *byte == SPACE)
}

/// The number from `low` to `high` whose decimal text the word is. There is none where the word has
/// a sign, a leading zero or another byte that is no digit.
pub fn number(word: &[u8], low: u64, high: u64) -> Option<u64>
    ensures number { result ≡ number low high word.now }
    ensures range { IfSome result (λ n. (low ≤ n) × (n ≤ high)) }
{
    let value = found!(decimal_value(word));
    if low <= value && value <= high {
        Some(value)
    } else {
        None
    }
}

/// The number from `low` to `high` that is the only word.
pub fn only_number(mut words: Words, low: u64, high: u64) -> Option<u64>
    ensures number { result ≡ one (number low high) (λ n. n) words.entry }
    ensures range { IfSome result (λ n. (low ≤ n) × (n ≤ high)) }
{
    let number = found!(number(found!(words.next()), low, high));
    found!(words.end());
    Some(number)
}

/// Whether the word is this text.
pub fn is(word: &[u8], text: &[u8]) -> bool
    ensures { result ≡ is_word word.now text.now }
{
    word == text
}

// The number whose decimal text the word is, where it is at most `u64::MAX`.
fn decimal_value(word: &[u8]) -> Option<u64>
    ensures some { IfSome result (λ n. word.now ≡ decimal n) }
    ensures fits { IfSome result (λ n. n < 2 ^ 64) }
    ensures none { IfNone result ((n : ℕ) → n < 2 ^ 64 → word.now ≢ decimal n) }
{
    if word.is_empty() {
        return None;
    }
    if has_leading_zero(word) {
        return None;
    }
    let mut value = 0;
    for byte in word {
        value = with_digit(value, *byte)?;
    }
    Some(value)
}

fn has_leading_zero(word: &[u8]) -> bool
    ensures { IsTrue result ↔ (1 < length word.now) × (slice_index word.now 0 ≡ 48) }
{
    word.len() > 1 && word[0] == b'0'
}

/// The number with one digit more at its end, where the byte is a digit and the number fits.
pub fn with_digit(value: u64, byte: u8) -> Option<u64>
    ensures some { IfSome result (λ n. (48 ≤ byte) × (byte ≤ 57) × (n ≡ value * 10 + (byte - 48))) }
    ensures none { IfNone result (48 ≤ byte → byte ≤ 57 → 2 ^ 64 ≤ value * 10 + (byte - 48)) }
{
    if byte < b'0' || byte > b'9' {
        return None;
    }
    value.checked_mul(TEN)?.checked_add(u64::from(byte - b'0'))
}
