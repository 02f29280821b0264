//! Symbols, which stand for words, and rows of them; how far a line goes along with them.

ghost use Rattle.std.specs.Prelude.{◌≡◌, ◌<◌, ◌≤◌, ◌↔◌, ◌⊎◌, IsTrue, Contains, length, max, slice_index, take};
ghost use Rattle.std.specs.List.{list_all};
ghost use Rattle.dg_grammar.specs.Prefixes.{IsLongestPrefix};
ghost use Rattle.dg_grammar.specs.Symbols.{Number, IsWordOf, IsLineOf, IsLineOfOne, is_well_formed, row_of, rows_of, terminal_of, word_texts};

use crate::words::{SPACE, with_digit};

/// What stands for a word of a command.
#[derive(Clone, Copy)]
pub enum Symbol {
    /// One of these words.
    OneOf(&'static [&'static [u8]]),
    /// A number, without a sign or a leading zero. The least is 0 or 1, so each prefix of a number's
    /// text is a number of the range too.
    Number { least: u64, greatest: u64 },
}

/// How many bytes are a prefix of a word that a symbol stands for, and whether they are all of it.
#[derive(Clone, Copy)]
pub struct Prefix {
    pub bytes: usize,
    pub whole: bool,
}

const NOTHING: Prefix = Prefix {
    bytes: 0,
    whole: false,
};

impl Prefix {
    /// The longer of two prefixes of the same bytes; of two as long, a whole one.
    pub fn longer(self, other: Prefix) -> Prefix
        ensures bytes { result.bytes ≡ max self.bytes other.bytes }
        ensures whole { IsTrue result.whole ↔ (IsTrue self.whole × (other.bytes ≤ self.bytes)) ⊎ (IsTrue other.whole × (self.bytes ≤ other.bytes)) }
    {
        Prefix {
            bytes: self.bytes.max(other.bytes),
            whole: self.whole && self.bytes >= other.bytes
                || other.whole && other.bytes >= self.bytes,
        }
    }
}

/// The length of the longest prefix of the line that is a prefix of a line of some row.
pub fn longest_prefix(rows: &[&[Symbol]], line: &[u8]) -> usize
    requires { IsTrue (list_all (list_all is_well_formed) (rows_of rows.now)) }
    ensures { IsLongestPrefix (IsLineOfOne (rows_of rows.now)) line.now result }
{
    let mut longest = 0;
    for row in rows {
        longest = longest.max(row_prefix(row, line));
    }
    longest
}

// The length of the longest prefix of the bytes that is a prefix of a line of this row.
fn row_prefix(row: &[Symbol], rest: &[u8]) -> usize
    requires { IsTrue (list_all is_well_formed (row_of row.now)) }
    ensures { IsLongestPrefix (IsLineOf (row_of row.now)) rest.now result }
{
    let Some((symbol, more)) = row.split_first() else {
        return 0;
    };
    let prefix = symbol.prefix(rest);
    if more.is_empty() || !prefix.whole || !has_space_at(rest, prefix.bytes) {
        return prefix.bytes;
    }
    let next = prefix.bytes + 1;
    next + row_prefix(more, &rest[next..])
}

/// Whether the byte of this index is there, and is a space.
pub fn has_space_at(bytes: &[u8], index: usize) -> bool
    ensures { IsTrue result ↔ (index < length bytes.now) × (slice_index bytes.now index ≡ 32) }
{
    index < bytes.len() && bytes[index] == SPACE
}

impl Symbol {
    /// The longest prefix of the bytes that is a prefix of a word of this symbol.
    pub fn prefix(self, rest: &[u8]) -> Prefix
        requires { IsTrue (is_well_formed (terminal_of self)) }
        ensures longest { IsLongestPrefix (IsWordOf (terminal_of self)) rest.now result.bytes }
        ensures whole { IsTrue result.whole ↔ IsWordOf (terminal_of self) (take result.bytes rest.now) }
    {
        match self {
            Symbol::OneOf(words) => words_prefix(words, rest),
            Symbol::Number { least, greatest } => number_prefix(least, greatest, rest),
        }
    }
}

/// The longest prefix of the bytes that is a prefix of one of the words.
pub fn words_prefix(words: &[&[u8]], rest: &[u8]) -> Prefix
    ensures longest { IsLongestPrefix (Contains (word_texts words.now)) rest.now result.bytes }
    ensures whole { IsTrue result.whole ↔ Contains (word_texts words.now) (take result.bytes rest.now) }
{
    let mut longest = NOTHING;
    for word in words {
        longest = longest.longer(word_prefix(word, rest));
    }
    longest
}

fn word_prefix(word: &[u8], rest: &[u8]) -> Prefix
    ensures longest { IsLongestPrefix (λ text. word.now ≡ text) rest.now result.bytes }
    ensures whole { IsTrue result.whole ↔ (word.now ≡ take result.bytes rest.now) }
{
    let mut bytes = 0;
    while bytes < word.len() && bytes < rest.len() && word[bytes] == rest[bytes] {
        bytes += 1;
    }
    Prefix {
        bytes,
        whole: bytes == word.len(),
    }
}

/// The longest prefix of the bytes that is a prefix of the text of a number in this range.
pub fn number_prefix(least: u64, greatest: u64, rest: &[u8]) -> Prefix
    requires { least ≤ 1 }
    ensures longest { IsLongestPrefix (IsWordOf (Number least greatest)) rest.now result.bytes }
    ensures whole { IsTrue result.whole ↔ IsWordOf (Number least greatest) (take result.bytes rest.now) }
{
    let mut prefix = NOTHING;
    let mut value = 0;
    for byte in rest {
        // No digit comes after a leading zero.
        if prefix.whole && value == 0 {
            return prefix;
        }
        match with_digit(value, *byte) {
            Some(next) if least <= next && next <= greatest => value = next,
            _ => return prefix,
        }
        prefix = Prefix {
            bytes: prefix.bytes + 1,
            whole: true,
        };
    }
    prefix
}
