//! Turns: a value of the key comes to a node, or goes from it.
ghost use Rattle.std.specs.Prelude.{◌≡◌, ◌+◌, ◌*◌, ◌<◌, ◌≤◌, ◌==◌, ◌++◌, length, filter, take, vec_capacity, vec_len, OnErr, OnOk};
ghost use Rattle.std.specs.List.Sorted.{IsSortedBy};
ghost use Rattle.std.specs.Option.{option_to_list};
ghost use Rattle.std.specs.Ordering.{nat_cmp};
ghost use Rattle.std.specs.Cmp.Lexicographic.{slice_cmp};
ghost use Rattle.dg_aux.specs.Turns.{AreAlike, earlier, place, turn_of, turns_by, turns_of};

use dg_event::{Element, Event, effect};
use std::alloc::AllocError;
use std::cmp::Ordering;

/// The value comes to the node of this id at the instant, or goes from it. A turn takes 24 bytes.
#[derive(Clone, Copy)]
pub(crate) struct Turn {
    /// The value, by its number in the list of names.
    pub(crate) value: u32,
    /// Whether it comes.
    pub(crate) comes: bool,
    /// The node.
    pub(crate) id: u64,
    /// The instant.
    pub(crate) time: u64,
}

// The order of turns: by value, and then by node.
fn compare(left: &Turn, right: &Turn) -> Ordering
    ensures { result ≡ slice_cmp nat_cmp (place left.now) (place right.now) }
{
    (left.value, left.id).cmp(&(right.value, right.id))
}

/// Brings the turns in their order; those of one value at one node keep theirs. O(n log n), and O(n) where
/// few stand behind many that are in order. An `Err` says that memory ran out: then nothing is moved.
pub(crate) fn sort(turns: &mut Vec<Turn>) -> Result<(), AllocError>
    ensures sorted { OnOk result (IsSortedBy earlier turns.new.items) }
    ensures alike { AreAlike turns.old.items turns.new.items }
    ensures kept { OnErr result (turns.new.items ≡ turns.old.items) }
    ensures len { vec_len turns.new ≡ vec_len turns.old }
    ensures capacity { vec_capacity turns.new ≡ vec_capacity turns.old }
{
    turns.sort_by(|left, right| compare(left, right))
}

/// The turns of the value, which follow one another. O(log n).
pub(crate) fn of_value(turns: &[Turn], value: u32) -> &[Turn]
    requires { IsSortedBy earlier turns.now }
    ensures { result.now ≡ filter (λ turn. turn.value == value) turns.now }
{
    let first = turns.partition_point(|turn| turn.value < value);
    let from = &turns[first..];
    &from[..from.partition_point(|turn| turn.value == value)]
}

// The turn of an element that comes or goes, if it is a value of the key.
fn turn_of(key: u32, comes: bool, time: u64, element: Option<Element>) -> Option<Turn>
    ensures { result ≡ turn_of key comes time element }
{
    match element {
        Some(Element::NodeAttr { id, key: k, value }) if k == key => Some(Turn {
            value,
            comes,
            id,
            time,
        }),
        _ => None,
    }
}

// Puts the turn last, if there is one.
fn push(turns: &mut Vec<Turn>, turn: Option<Turn>)
    requires { vec_len turns.old < vec_capacity turns.old }
    ensures items { turns.new.items ≡ turns.old.items ++ option_to_list turn }
    ensures capacity { vec_capacity turns.new ≡ vec_capacity turns.old }
    ensures len { vec_len turns.new ≤ vec_len turns.old + 1 }
{
    if let Some(turn) = turn {
        turns.push_reserved(turn);
    }
}

// Puts the turns of the event last: that of what it removes, and that of what it adds.
fn push_event(turns: &mut Vec<Turn>, key: u32, event: &Event)
    requires { vec_len turns.old + 2 ≤ vec_capacity turns.old }
    ensures items { turns.new.items ≡ turns.old.items ++ turns_by key event.now }
    ensures capacity { vec_capacity turns.new ≡ vec_capacity turns.old }
    ensures len { vec_len turns.new ≤ vec_len turns.old + 2 }
{
    let (removed, added) = effect(event);
    push(turns, turn_of(key, false, event.time, removed));
    push(turns, turn_of(key, true, event.time, added));
}

/// Puts the turns of the events last. There is room for two of each event.
pub(crate) fn push_events(turns: &mut Vec<Turn>, key: u32, events: &[Event])
    requires { vec_len turns.old + 2 * length events.now ≤ vec_capacity turns.old }
    ensures items { turns.new.items ≡ turns.old.items ++ turns_of key events.now }
    ensures capacity { vec_capacity turns.new ≡ vec_capacity turns.old }
    ensures len { vec_len turns.new ≤ vec_len turns.old + 2 * length events.now }
{
    for event in events {
        push_event(turns, key, event);
    }
}
