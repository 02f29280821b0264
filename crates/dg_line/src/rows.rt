//! The two loops over a table of rows: the command that a line is, and how far a line goes along with the rows.
ghost use Rattle.std.specs.Prelude.{◌≡◌, ◌≤◌, ℕ, ◌+◌, ◌<◌, ◌↔◌, ◌∷◌, List, None, Option, MatchOption, IfSome, IsTrue, false, drop, length, map, set, take, option_and_then};
ghost use Rattle.std.specs.List.{list_all};
ghost use Rattle.dg_grammar.specs.Prefixes.{IsLongestPrefix};
ghost use Rattle.dg_grammar.specs.Symbols.{is_well_formed, row_of, terminal_of, word_texts};
ghost use Rattle.dg_line.specs.Table.{IsEndOf, IsReadBy, IsReadByOne, IsVerbAlone, end_command, first_command, is_well_made, read_row, reading_of, row_command, text_index, word_value, zeros};
ghost use Rattle.dg_machine.specs.CommandGrammar.{CountIsInRange};
ghost use Rattle.dg_machine.specs.declared.command.Command.{Command};
ghost use Rattle.dg_text.specs.Verbs.{is_word};
ghost use Rattle.dg_text.specs.Words.{words};

use crate::table::{End, Row, WORDS_MAX, made};
use crate::tails::then_prefix;
use crate::words::{Words, found, is, number};
use dg_grammar::{Symbol, has_space_at, longest_prefix, words_prefix};
use dg_machine::Command;

/// The command that the line is by the first of the rows that reads it.
pub(crate) fn command(rows: &[Row], line: &[u8]) -> Option<Command>
    requires { IsTrue (list_all is_well_made (map reading_of rows.now)) }
    ensures command { result ≡ first_command rows.now (words line.now) }
    ensures range { IfSome result (λ c. CountIsInRange c) }
{
    let verb = first_word(line);
    for row in rows {
        if row.has_verb(verb) {
            if let Some(command) = row.command(verb, line) {
                return Some(command);
            }
        }
    }
    None
}

// The first word of a line. It may be empty.
fn first_word(line: &[u8]) -> &[u8]
    ensures { words line.now ≡ result.now ∷ drop 1 (words line.now) }
{
    match Words::of(line).next() {
        Some(word) => word,
        None => line,
    }
}

// The words of the line behind its first.
fn words_behind<'a>(first: &[u8], line: &'a [u8]) -> Words<'a>
    requires { words line.now ≡ first.now ∷ drop 1 (words line.now) }
    ensures { result ≡ drop 1 (words line.now) }
{
    // An empty word, and behind the space the rest of the line.
    let mut words = Words::of(&line[first.len()..]);
    let _empty = words.next();
    words
}

/// The length of the longest prefix of the line that is a prefix of a line of some row.
pub(crate) fn command_prefix(rows: &[Row], line: &[u8]) -> usize
    requires { IsTrue (list_all is_well_made (map reading_of rows.now)) }
    ensures { IsLongestPrefix (IsReadByOne (map reading_of rows.now)) line.now result }
{
    let mut longest = 0;
    for row in rows {
        longest = longest.max(row.prefix(line));
    }
    longest
}

impl Row {
    // Whether this is its verb. Behind another, no words are a command by this row.
    #[inline(always)]
    fn has_verb(self, word: &[u8]) -> bool
        ensures own { IsTrue result → IsTrue (is_word word.now self.0.now) }
        ensures other { result ≡ false → (rest : List (List ℕ)) → row_command (reading_of self) (word.now ∷ rest) ≡ None }
    {
        is(word, self.0)
    }

    // The command that the line is by this row, whose verb is its first word.
    fn command(self, first: &[u8], line: &[u8]) -> Option<Command>
        requires made { IsTrue (is_well_made (reading_of self)) }
        requires first { words line.now ≡ first.now ∷ drop 1 (words line.now) }
        requires verb { IsTrue (is_word first.now self.0.now) }
        ensures command { result ≡ row_command (reading_of self) (words line.now) }
        ensures range { IfSome result (λ c. CountIsInRange c) }
    {
        self.command_behind(words_behind(first, line))
    }

    // The command that its verb and these words behind it are.
    fn command_behind(self, mut words: Words) -> Option<Command>
        requires { length self.1.now < WORDS_MAX }
        ensures command { result ≡ read_row 1 zeros (row_of self.1.now) (end_command self.2) words.entry }
        ensures range { IfSome result (λ c. CountIsInRange c) }
    {
        let values = found!(values(self.1, &mut words));
        match self.2 {
            End::Made(make) => {
                found!(words.end());
                Some(made(make, &values))
            }
            End::Then(tail) => tail.command(&values, words),
        }
    }

    // The length of the longest prefix of the line that is a prefix of a line of this row.
    fn prefix(self, line: &[u8]) -> usize
        requires { IsTrue (is_well_made (reading_of self)) }
        ensures { IsLongestPrefix (IsReadBy (reading_of self)) line.now result }
    {
        let verb = words_prefix(&[self.0], line);
        if !verb.whole {
            return verb.bytes;
        }
        if !has_space_at(line, verb.bytes) {
            return verb.bytes;
        }
        if self.is_verb_alone() {
            return verb.bytes;
        }
        let next = verb.bytes + 1;
        next + self.prefix_behind(&line[next..])
    }

    // Whether its verb is all of a line of this row.
    fn is_verb_alone(self) -> bool
        ensures { IsTrue result ↔ IsVerbAlone self.2 (row_of self.1.now) }
    {
        match self.2 {
            End::Made(_) => self.1.is_empty(),
            End::Then(_) => false,
        }
    }

    // The length of the longest prefix of the bytes that is a prefix of what comes behind the verb of this row.
    fn prefix_behind(self, rest: &[u8]) -> usize
        requires { IsTrue (list_all is_well_formed (row_of self.1.now)) }
        ensures { IsLongestPrefix (IsEndOf self.2 (row_of self.1.now)) rest.now result }
    {
        match self.2 {
            End::Made(_) => longest_prefix(&[self.1], rest),
            End::Then(tail) => then_prefix(self.1, tail, rest),
        }
    }
}

// The values of the words behind a verb, one for each symbol: that of the verb is 0, and zeros are behind them.
fn values(symbols: &[Symbol], words: &mut Words) -> Option<[u64; WORDS_MAX]>
    requires { length symbols.now < WORDS_MAX }
    ensures { MatchOption result
        ((make : List ℕ → List (List ℕ) → Option Command) → read_row 1 zeros (row_of symbols.now) make words.old ≡ None)
        (λ values. (make : List ℕ → List (List ℕ) → Option Command) → read_row 1 zeros (row_of symbols.now) make words.old ≡ make values words.new) }
{
    let mut values = [0; WORDS_MAX];
    for i in 0..symbols.len() {
        values[i + 1] = found!(value(symbols[i], found!(words.next())));
    }
    Some(values)
}

// The number that a word of the symbol is, or which of its texts.
fn value(symbol: Symbol, word: &[u8]) -> Option<u64>
    ensures { result ≡ word_value (terminal_of symbol) word.now }
{
    match symbol {
        Symbol::OneOf(texts) => text_index(texts, word),
        Symbol::Number { least, greatest } => number(word, least, greatest),
    }
}

// Which of the texts the word is.
fn text_index(texts: &[&[u8]], word: &[u8]) -> Option<u64>
    ensures { result ≡ text_index (word_texts texts.now) word.now }
{
    for i in 0..texts.len() {
        if is(word, texts[i]) {
            return Some(i as u64);
        }
    }
    None
}
