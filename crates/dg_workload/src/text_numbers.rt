//! The numbers of the texts in the list of names.

ghost use Rattle.std.specs.Prelude.{◌≡◌, ◌+◌, ◌<◌, ◌≤◌, ◌⊎◌, IfOk, OnOk, OnErr, length, take};
ghost use Rattle.dg_text.specs.Names.{added, number_in};
ghost use Rattle.dg_changes.specs.ChangeGrammar.{named, what_in};
ghost use Rattle.dg_workload.specs.Request.{key_text, value_text, request_by_text, with_request_key};

use crate::request::{Key, Request};
use crate::texts::{ValueText, text_of_key};
use dg_graph::What;
use dg_names::Names;
use dg_text::{NAME_BYTES_MAX, NAMES_MAX};
use std::alloc::AllocError;

/// What is asked for, by the numbers of its texts in the names, which get those that they lack, the key
/// before the value. An `Err` says that memory ran out for a new name: then the names may have the key as
/// a new last one.
pub fn numbered(request: Request, names: &mut Names) -> Result<What, AllocError>
    requires room { length names.old + 2 ≤ NAMES_MAX }

    // What is asked for, and the names with its texts.
    ensures what { IfOk result (λ numbered. numbered ≡ what_in names.new (request_by_text request)) }
    ensures named { OnOk result (names.new ≡ named names.old (request_by_text request)) }

    // No memory for a name that is new.
    ensures new_name { OnErr result (length names.old < length (named names.old (request_by_text request))) }
    ensures key_alone { OnErr result ((names.new ≡ names.old) ⊎ (names.new ≡ with_request_key names.old (request_by_text request))) }

    // Every name keeps its number, and at most two are new.
    ensures kept { take (length names.old) names.new ≡ names.old }
    ensures few { length names.new ≤ length names.old + 2 }
{
    match request {
        Request::Plain(what) => Ok(what),
        Request::SetNode { id, key, number } => {
            let text = ValueText::of(key, number);
            let (key, value) = both_numbers(text_of_key(key), text.as_bytes(), names)?;
            Ok(What::SetNode { id, key, value })
        }
        Request::UnsetNode { id, key } => Ok(What::UnsetNode {
            id,
            key: key_number(key, names)?,
        }),
        Request::SetEdge { id, key, number } => {
            let text = ValueText::of(key, number);
            let (key, value) = both_numbers(text_of_key(key), text.as_bytes(), names)?;
            Ok(What::SetEdge { id, key, value })
        }
        Request::UnsetEdge { id, key } => Ok(What::UnsetEdge {
            id,
            key: key_number(key, names)?,
        }),
    }
}

// The numbers of a key and of its value, by their texts.
fn both_numbers(key: &[u8], value: &[u8], names: &mut Names) -> Result<(u32, u32), AllocError>
    requires short_key { length key.now ≤ NAME_BYTES_MAX }
    requires short_value { length value.now ≤ NAME_BYTES_MAX }
    requires room { length names.old + 2 ≤ NAMES_MAX }

    // The numbers, and the names with both texts.
    ensures named { OnOk result (names.new ≡ added (added names.old key.now) value.now) }
    ensures key { IfOk result (λ numbers. numbers.0 ≡ number_in names.new key.now) }
    ensures value { IfOk result (λ numbers. numbers.1 ≡ number_in names.new value.now) }

    // No memory for a name that is new.
    ensures new_name { OnErr result (length names.old < length (added (added names.old key.now) value.now)) }
    ensures key_alone { OnErr result ((names.new ≡ names.old) ⊎ (names.new ≡ added names.old key.now)) }

    // Every name keeps its number, and at most two are new.
    ensures kept { take (length names.old) names.new ≡ names.old }
    ensures few { length names.new ≤ length names.old + 2 }
{
    let key = names.add(key)?;
    let value = names.add(value)?;
    Ok((key, value))
}

// The number of a key.
fn key_number(key: Key, names: &mut Names) -> Result<u32, AllocError>
    requires room { length names.old < NAMES_MAX }

    // The number, and the names with the key.
    ensures named { OnOk result (names.new ≡ added names.old (key_text key)) }
    ensures number { IfOk result (λ number. number ≡ number_in names.new (key_text key)) }

    // No memory for a key that is new.
    ensures new_name { OnErr result (length names.old < length (added names.old (key_text key))) }
    ensures unchanged { OnErr result (names.new ≡ names.old) }

    // Every name keeps its number, and at most one is new.
    ensures kept { take (length names.old) names.new ≡ names.old }
    ensures few { length names.new ≤ length names.old + 1 }
{
    names.add(text_of_key(key))
}
