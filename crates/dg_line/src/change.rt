//! The change that a line of a batch asks for, with its texts numbered into the names.
ghost use Rattle.std.specs.Prelude.{drop, ◌≡◌, ◌+◌, ◌<◌, ◌≤◌, ◌⊎◌, List, ℕ, Some, None, IfOk, IsErrOf, OnOk, OnErr, length, take};
ghost use Rattle.std.specs.Option.{option_map};
ghost use Rattle.dg_changes.specs.ChangeGrammar.{change_verbs, WhatByText, Plain, ChangeByText, what_by_text_of, change_with, direction_of, named, new_edge, one_id, change_by_text_of, sending_of, setting_of, Sends, unset_of, what_in};
ghost use Rattle.dg_text.specs.Verbs.{look_up};
ghost use Rattle.dg_text.specs.Names.{added, number_in};
ghost use Rattle.dg_line.specs.TextChange.{change_by_text, what_by_text, with_key};
ghost use Rattle.dg_line.specs.declared.change.ChangeFault.TheVariants.{Memory};

use crate::text_change::{TextAttribute, TextChange, TextKey, TextMessage, TextWhat};
use crate::words::{Words, found, id, is, only_number, time};
use dg_graph::{Change, What};
use dg_names::{NAMES_MAX, Names, is_key, is_name};
use std::alloc::AllocError;
use thiserror::Error;

/// Why a line has no change.
#[derive(Clone, Copy, Debug, Error)]
pub enum ChangeFault {
    /// The line is not in the grammar of changes.
    #[error("the line is no change")]
    Form,
    /// There is no memory for a new name.
    #[error("out of memory for a new name")]
    Memory,
}

impl From<AllocError> for ChangeFault {
    ghost from_gives = { λ _ fault. fault ≡ Memory };

    fn from(_error: AllocError) -> ChangeFault {
        ChangeFault::Memory
    }
}

/// The change that the line of a batch asks for, by the numbers of its texts. The names get its texts
/// that they lack, the key before the value; a message has a value alone. `ChangeFault::Form` where the line is not in the grammar
/// of changes: then the names are as they were. `ChangeFault::Memory` where memory ran out for a new
/// name: then the names may have the key as a new last one. A line whose texts are names already
/// needs none.
pub fn read_change(line: &[u8], names: &mut Names) -> Result<Change, ChangeFault>
    requires room { length names.old + 2 ≤ NAMES_MAX }

    // The change, and the names with its texts.
    ensures change { IfOk result (λ change. (said : ChangeByText) × (change_by_text_of line.now ≡ Some said) × (change ≡ change_with names.old said) × (names.new ≡ named names.old said.asked)) }

    // No change, or no memory for a name that is new.
    ensures form { IsErrOf result ChangeFault.Form → (change_by_text_of line.now ≡ None) × (names.new ≡ names.old) }
    ensures memory { IsErrOf result ChangeFault.Memory → (said : ChangeByText) × (change_by_text_of line.now ≡ Some said) }
    ensures new_name { IsErrOf result ChangeFault.Memory → (said : ChangeByText) → change_by_text_of line.now ≡ Some said → length names.old < length (named names.old said.asked) }
    ensures key_alone { IsErrOf result ChangeFault.Memory → (said : ChangeByText) → change_by_text_of line.now ≡ Some said → (names.new ≡ names.old) ⊎ (names.new ≡ with_key names.old said.asked) }

    // Every name keeps its number, and at most two are new.
    ensures kept { take (length names.old) names.new ≡ names.old }
    ensures few { length names.new ≤ length names.old + 2 }
{
    let Some(change) = parse_change(line) else {
        return Err(ChangeFault::Form);
    };
    let what = numbered(change.what, names)?;
    Ok(Change {
        time: change.time,
        what,
    })
}

// What is asked for, by the numbers of its texts in the names, which get those that they lack.
fn numbered(what: TextWhat, names: &mut Names) -> Result<What, AllocError>
    requires room { length names.old + 2 ≤ NAMES_MAX }

    // What is asked for, and the names with its texts.
    ensures what { IfOk result (λ numbered. numbered ≡ what_in names.new (what_by_text what.entry)) }
    ensures named { OnOk result (names.new ≡ named names.old (what_by_text what.entry)) }

    // No memory for a name that is new.
    ensures new_name { OnErr result (length names.old < length (named names.old (what_by_text what.entry))) }
    ensures key_alone { OnErr result ((names.new ≡ names.old) ⊎ (names.new ≡ with_key names.old (what_by_text what.entry))) }

    // Every name keeps its number, and at most two are new.
    ensures kept { take (length names.old) names.new ≡ names.old }
    ensures few { length names.new ≤ length names.old + 2 }
{
    match what {
        TextWhat::Plain(what) => Ok(what),
        TextWhat::SetNode(attribute) => {
            let (key, value) = both_numbers(attribute, names)?;
            Ok(What::SetNode {
                id: attribute.id,
                key,
                value,
            })
        }
        TextWhat::UnsetNode(key) => Ok(What::UnsetNode {
            id: key.id,
            key: key_number(key, names)?,
        }),
        TextWhat::SetEdge(attribute) => {
            let (key, value) = both_numbers(attribute, names)?;
            Ok(What::SetEdge {
                id: attribute.id,
                key,
                value,
            })
        }
        TextWhat::UnsetEdge(key) => Ok(What::UnsetEdge {
            id: key.id,
            key: key_number(key, names)?,
        }),
        TextWhat::Send(message) => Ok(What::Message {
            src: message.src,
            dst: message.dst,
            value: value_number(message, names)?,
        }),
    }
}

// The numbers of the key and of the value.
fn both_numbers(attribute: TextAttribute, names: &mut Names) -> Result<(u32, u32), AllocError>
    requires room { length names.old + 2 ≤ NAMES_MAX }

    // The numbers, and the names with both texts.
    ensures named { OnOk result (names.new ≡ added (added names.old attribute.entry.key.now) attribute.entry.value.now) }
    ensures key { IfOk result (λ numbers. numbers.0 ≡ number_in names.new attribute.entry.key.now) }
    ensures value { IfOk result (λ numbers. numbers.1 ≡ number_in names.new attribute.entry.value.now) }

    // No memory for a name that is new.
    ensures new_name { OnErr result (length names.old < length (added (added names.old attribute.entry.key.now) attribute.entry.value.now)) }
    ensures key_alone { OnErr result ((names.new ≡ names.old) ⊎ (names.new ≡ added names.old attribute.entry.key.now)) }

    // Every name keeps its number, and at most two are new.
    ensures kept { take (length names.old) names.new ≡ names.old }
    ensures few { length names.new ≤ length names.old + 2 }
{
    let key = names.add(attribute.key)?;
    let value = names.add(attribute.value)?;
    Ok((key, value))
}

// The number of the key.
fn key_number(key: TextKey, names: &mut Names) -> Result<u32, AllocError>
    requires room { length names.old < NAMES_MAX }

    // The number, and the names with the key.
    ensures named { OnOk result (names.new ≡ added names.old key.entry.key.now) }
    ensures key { IfOk result (λ number. number ≡ number_in names.new key.entry.key.now) }

    // No memory for a key that is new.
    ensures new_name { OnErr result (length names.old < length (added names.old key.entry.key.now)) }
    ensures unchanged { OnErr result (names.new ≡ names.old) }

    // Every name keeps its number, and at most one is new.
    ensures kept { take (length names.old) names.new ≡ names.old }
    ensures few { length names.new ≤ length names.old + 1 }
{
    names.add(key.key)
}

// The number of the value of a message.
fn value_number(message: TextMessage, names: &mut Names) -> Result<u32, AllocError>
    requires room { length names.old < NAMES_MAX }

    // The number, and the names with the value.
    ensures named { OnOk result (names.new ≡ added names.old message.entry.value.now) }
    ensures value { IfOk result (λ number. number ≡ number_in names.new message.entry.value.now) }

    // No memory for a value that is new.
    ensures new_name { OnErr result (length names.old < length (added names.old message.entry.value.now)) }
    ensures unchanged { OnErr result (names.new ≡ names.old) }

    // Every name keeps its number, and at most one is new.
    ensures kept { take (length names.old) names.new ≡ names.old }
    ensures few { length names.new ≤ length names.old + 1 }
{
    names.add(message.value)
}

// The change of the line by its texts, where it is in the grammar of changes.
fn parse_change(line: &[u8]) -> Option<TextChange>
    ensures { option_map change_by_text result ≡ change_by_text_of line.now }
{
    let mut words = Words::of(line);
    let time = found!(time(found!(words.next())));
    let what = found!(parse_what(words));
    Some(TextChange { time, what })
}

// What the words after the time ask for.
fn parse_what(mut words: Words) -> Option<TextWhat>
    ensures { option_map what_by_text result ≡ what_by_text_of words.entry }
{
    let verb = found!(words.next());
    if is(verb, b"+node") {
        Some(TextWhat::Plain(What::AddNode {
            id: found!(only_id(words)),
        }))
    } else if is(verb, b"-node") {
        Some(TextWhat::Plain(What::RemoveNode {
            id: found!(only_id(words)),
        }))
    } else if is(verb, b"+edge") {
        Some(TextWhat::Plain(found!(new_edge(words))))
    } else if is(verb, b"-edge") {
        Some(TextWhat::Plain(What::RemoveEdge {
            id: found!(only_id(words)),
        }))
    } else {
        parse_change_with_texts(verb, words)
    }
}

// What this verb and the words after it ask for, of those that stand behind `-edge` in the table.
fn parse_change_with_texts<'a>(verb: &[u8], words: Words<'a>) -> Option<TextWhat<'a>>
    ensures { option_map what_by_text result ≡ look_up verb.now (drop 4 change_verbs) words.entry }
{
    if is(verb, b"nset") {
        Some(TextWhat::SetNode(found!(parse_attribute(words))))
    } else if is(verb, b"ndel") {
        Some(TextWhat::UnsetNode(found!(parse_key(words))))
    } else if is(verb, b"eset") {
        Some(TextWhat::SetEdge(found!(parse_attribute(words))))
    } else if is(verb, b"edel") {
        Some(TextWhat::UnsetEdge(found!(parse_key(words))))
    } else if is(verb, b"msg") {
        Some(TextWhat::Send(found!(parse_message(words))))
    } else {
        None
    }
}

// The id that is the only word.
fn only_id(words: Words) -> Option<u64>
    ensures { (make : ℕ → What) → option_map (λ n. Plain (make n)) result ≡ one_id make words.entry }
{
    only_number(words, 0, u64::MAX)
}

// `ID SRC DST dir` or `ID SRC DST undir`, from the words after `+edge`.
fn new_edge(mut words: Words) -> Option<What>
    ensures { option_map (λ what. Plain what) result ≡ new_edge words.entry }
{
    let edge = found!(id(found!(words.next())));
    let src = found!(id(found!(words.next())));
    let dst = found!(id(found!(words.next())));
    let directed = found!(is_directed(found!(words.next())));
    found!(words.end());
    Some(What::AddEdge {
        id: edge,
        src,
        dst,
        directed,
    })
}

// `ID KEY VALUE`, where the value is the rest of the line.
fn parse_attribute(mut words: Words) -> Option<TextAttribute>
    ensures { (make : ℕ → List ℕ → List ℕ → WhatByText) → option_map (λ a. make a.id a.key.now a.value.now) result ≡ setting_of make words.entry }
{
    let owner = found!(words.next());
    let key = found!(words.next());
    let value = found!(words.rest());
    let id = found!(id(owner));
    if is_key(key) && is_name(value) {
        Some(TextAttribute { id, key, value })
    } else {
        None
    }
}

// `ID KEY`.
fn parse_key(mut words: Words) -> Option<TextKey>
    ensures { (make : ℕ → List ℕ → WhatByText) → option_map (λ k. make k.id k.key.now) result ≡ unset_of make words.entry }
{
    let id = found!(id(found!(words.next())));
    let key = found!(words.next());
    found!(words.end());
    if is_key(key) {
        Some(TextKey { id, key })
    } else {
        None
    }
}

// `SRC DST VALUE`, where the value is the rest of the line.
fn parse_message(mut words: Words) -> Option<TextMessage>
    ensures { option_map (λ m. Sends m.src m.dst m.value.now) result ≡ sending_of words.entry }
{
    let sender = found!(words.next());
    let receiver = found!(words.next());
    let value = found!(words.rest());
    let src = found!(id(sender));
    let dst = found!(id(receiver));
    if is_name(value) {
        Some(TextMessage { src, dst, value })
    } else {
        None
    }
}

// Whether an edge is directed.
fn is_directed(word: &[u8]) -> Option<bool>
    ensures { result ≡ direction_of word.now }
{
    if is(word, b"dir") {
        Some(true)
    } else if is(word, b"undir") {
        Some(false)
    } else {
        None
    }
}
