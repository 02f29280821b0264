//! What comes behind the words of some rows, and no row of symbols stands for: the command that it is, and how far a line goes
//! along with it.
ghost use Rattle.std.specs.Prelude.{◌≡◌, ◌≤◌, ◌<◌, ◌==◌, ◌||◌, ◌∷◌, IfSome, IsTrue, length, nat_le, option_and_then, take};
ghost use Rattle.std.specs.List.{list_all};
ghost use Rattle.dg_grammar.specs.Prefixes.{IsLongestPrefix};
ghost use Rattle.dg_grammar.specs.Symbols.{is_well_formed, row_of};
ghost use Rattle.dg_machine.specs.CommandGrammar.{CountIsInRange, key_word, several_with, times_of};
ghost use Rattle.dg_machine.specs.ValueIndex.{value_of};
ghost use Rattle.dg_text.specs.declared.limits.TheConstants.{KEY_BYTES_MAX, NAME_BYTES_MAX};
ghost use Rattle.dg_text.specs.Verbs.{one};
ghost use Rattle.dg_line.specs.Table.{choice_with, instants_with, search_with, tail_command};
ghost use Rattle.dg_line.specs.Tails.{IsInstantsText, IsKeyText, IsLineThen, IsSearchText, IsTail, IsValueText};

use crate::table::{TIME, WORDS_MAX, columns, heard_columns};
use crate::words::{Words, found, time};
use dg_expr::{expression_prefix, read_expr};
use dg_grammar::{SPACE, Symbol, has_space_at, longest_prefix};
use dg_graph::Columns;
use dg_machine::{Command, KeyText, Selection, TIMES_MAX, ValueText};
use dg_names::{is_key, is_name};
use dg_text::{KEY_BYTES_MAX, NAME_BYTES_MAX};

/// What comes behind some words.
#[derive(Clone, Copy)]
pub(crate) enum Tail {
    /// An expression over instants.
    Expression,
    /// A key.
    Key,
    /// A key, a space, and a value, which is the rest of the line.
    Search,
    /// An instant or more, at most `TIMES_MAX`.
    Instants,
}

/// The most instants of a command.
const INSTANTS: &[Symbol] = &[TIME; TIMES_MAX];

/// The length of the longest prefix of the line that is a prefix of a line of this row with such a tail behind it.
pub(crate) fn then_prefix(row: &[Symbol], tail: Tail, line: &[u8]) -> usize
    requires { IsTrue (list_all is_well_formed (row_of row.now)) }
    ensures { IsLongestPrefix (IsLineThen (row_of row.now) (IsTail tail)) line.now result }
{
    let Some((symbol, more)) = row.split_first() else {
        return tail.prefix(line);
    };
    let prefix = symbol.prefix(line);
    if !prefix.whole {
        return prefix.bytes;
    }
    if !has_space_at(line, prefix.bytes) {
        return prefix.bytes;
    }
    let next = prefix.bytes + 1;
    next + then_prefix(more, tail, &line[next..])
}

impl Tail {
    /// The command of the values before such a tail, and of the words that it is.
    pub(crate) fn command(self, values: &[u64; WORDS_MAX], words: Words) -> Option<Command>
        ensures command { result ≡ tail_command self values.now words.entry }
        ensures range { IfSome result (λ c. CountIsInRange c) }
    {
        match self {
            Tail::Expression => expression(columns(values[1]), words),
            Tail::Key => index(words),
            Tail::Search => find(values[1], words),
            Tail::Instants => several(heard_columns(values[1]), words),
        }
    }

    // The length of the longest prefix of the bytes that is a prefix of such a tail.
    fn prefix(self, rest: &[u8]) -> usize
        ensures { IsLongestPrefix (IsTail self) rest.now result }
    {
        match self {
            Tail::Expression => expression_prefix(rest),
            Tail::Key => key_prefix(rest),
            Tail::Search => search_prefix(rest),
            Tail::Instants => instants_prefix(rest),
        }
    }
}

// The length of the longest prefix of the bytes that is a prefix of the most instants of a command.
fn instants_prefix(rest: &[u8]) -> usize
    ensures { IsLongestPrefix IsInstantsText rest.now result }
{
    longest_prefix(&[INSTANTS], rest)
}

// The length of the longest prefix of the bytes that is a prefix of a key. It is a key, unless it is empty.
fn key_prefix(rest: &[u8]) -> usize
    ensures longest { IsLongestPrefix IsKeyText rest.now result }
    ensures whole { 0 < result → IsKeyText (take result rest.now) }
{
    for i in 0..rest.len() {
        if i == KEY_BYTES_MAX {
            return i;
        }
        if is_in_no_key(rest[i]) {
            return i;
        }
    }
    rest.len()
}

// Whether the byte is in no key.
fn is_in_no_key(byte: u8) -> bool
    ensures { result ≡ nat_le byte 32 }
{
    byte <= SPACE
}

// The length of the longest prefix of the bytes that is a prefix of a value.
fn value_prefix(rest: &[u8]) -> usize
    ensures { IsLongestPrefix IsValueText rest.now result }
{
    for i in 0..rest.len() {
        if i == NAME_BYTES_MAX {
            return i;
        }
        if ends_line(rest[i]) {
            return i;
        }
    }
    rest.len()
}

// Whether the byte is in no value.
fn ends_line(byte: u8) -> bool
    ensures { result ≡ (byte == 10 || byte == 13) }
{
    byte == b'\n' || byte == b'\r'
}

// The length of the longest prefix of the bytes that is a prefix of a key, a space and a value.
fn search_prefix(rest: &[u8]) -> usize
    ensures { IsLongestPrefix IsSearchText rest.now result }
{
    let bytes = key_prefix(rest);
    if bytes == 0 {
        return 0;
    }
    if !has_space_at(rest, bytes) {
        return bytes;
    }
    let next = bytes + 1;
    next + value_prefix(&rest[next..])
}

// The command of these columns and of an expression.
fn expression(cols: Columns, words: Words) -> Option<Command>
    ensures command { result ≡ choice_with cols words.entry }
    ensures range { IfSome result (λ c. CountIsInRange c) }
{
    let text = found!(words.rest());
    match read_expr(text) {
        Ok(expr) => Some(Command::Select {
            what: Selection::Chosen(expr),
            cols,
        }),
        Err(_) => None,
    }
}

// The command of a key.
fn index(mut words: Words) -> Option<Command>
    ensures command { result ≡ one key_word (λ key. Command.Index key) words.entry }
    ensures range { IfSome result (λ c. CountIsInRange c) }
{
    let key = found!(key(found!(words.next())));
    found!(words.end());
    Some(Command::Index { key })
}

// The command of this instant, of a key and of a value: the value is the rest of the line.
fn find(t: u64, mut words: Words) -> Option<Command>
    ensures command { result ≡ search_with t words.entry }
    ensures range { IfSome result (λ c. CountIsInRange c) }
{
    let key_word = found!(words.next());
    let value_text = found!(words.rest());
    let key = found!(key(key_word));
    if !is_name(value_text) {
        return None;
    }
    let value = value(value_text);
    Some(Command::Find { t, key, value })
}

// The text as a key, where it is one.
fn key(text: &[u8]) -> Option<KeyText>
    ensures key { result ≡ key_word text.now }
    ensures few { IfSome result (λ k. k.count ≤ KEY_BYTES_MAX) }
{
    if !is_key(text) {
        return None;
    }
    let mut bytes = [0; KEY_BYTES_MAX];
    bytes[..text.len()].copy_from_slice(text);
    Some(KeyText {
        bytes,
        count: text.len() as u8,
    })
}

// The text as a value.
fn value(text: &[u8]) -> ValueText
    requires { length text.now ≤ NAME_BYTES_MAX }
    ensures { result ≡ value_of text.now }
{
    let mut bytes = [0; NAME_BYTES_MAX];
    bytes[..text.len()].copy_from_slice(text);
    ValueText {
        bytes,
        count: text.len() as u16,
    }
}

// The command of these columns and of instants.
fn several(cols: Columns, mut words: Words) -> Option<Command>
    ensures command { result ≡ instants_with cols words.entry }
    ensures range { IfSome result (λ c. CountIsInRange c) }
{
    let first = found!(time(found!(words.next())));
    several_from(cols, first, words)
}

// The command of these columns, this first instant, and the words of the other instants.
fn several_from(cols: Columns, first: u64, mut words: Words) -> Option<Command>
    ensures command { result ≡ option_and_then (λ times. several_with cols (first ∷ times)) (times_of words.entry) }
    ensures range { IfSome result (λ c. CountIsInRange c) }
{
    let mut times = [0; TIMES_MAX];
    times[0] = first;
    let mut count = 1;
    while let Some(word) = words.next() {
        let t = found!(time(word));
        if count == TIMES_MAX {
            return None;
        }
        times[count] = t;
        count += 1;
    }
    Some(Command::Several {
        cols,
        times,
        count: count as u8,
    })
}
