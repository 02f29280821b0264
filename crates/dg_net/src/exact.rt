//! The exact net of events that are changes of a set: the exact delta that they come to.
//!
//! Of such events those that take an element out and those that put it in take turns. So it is in the
//! net exactly where it goes out more often than it comes in, or comes in more often than it goes out.
ghost use Rattle.std.specs.Prelude.{◌≡◌, ◌++◌, List, IfOk, OnOk};
ghost use Rattle.std.specs.List.{flat_map};
ghost use Rattle.std.specs.List.Sorted.{IsPermutation, IsSortedBy};
ghost use Rattle.std.specs.Option.{option_to_list};
ghost use Rattle.dg_graph.specs.declared.element.Element.{Element};
ghost use Rattle.dg_graph.specs.Composition.{between};
ghost use Rattle.dg_graph.specs.Effect.{removed_by, added_by};
ghost use Rattle.dg_graph.specs.Elements.{IsSet, before};
ghost use Rattle.dg_graph.specs.Replay.{replay_from};
ghost use Rattle.dg_graph.specs.ExactEvents.{AreChangesOf};
ghost use Rattle.dg_net.specs.Surplus.{stands_first, last_of, each_once, surplus};

use dg_delta::{Delta, Element, Set};
use dg_event::{Event, compare, effect};
use std::alloc::{AllocError, Global};
use std::cmp::Ordering;

/// The exact net of the events: where they are changes of a set, one after another, the exact delta
/// from it to the set that they lead to. What comes in and goes out again is in neither of its sets.
/// An `Err` says that memory ran out.
pub fn exact_net(alloc: Global, events: &[Event]) -> Result<Delta, AllocError>
    ensures { IfOk result (λ d. (set : List Element) → IsSet set → AreChangesOf set events.now
        → d ≡ between set (replay_from set events.now)) }
{
    let (mut removed, mut added) = effects(alloc, events)?;
    sort(&mut removed);
    sort(&mut added);
    net_of_sorted(alloc, &removed, &added)
}

/// What the events take out, and what they put in, one after another.
fn effects(alloc: Global, events: &[Event]) -> Result<(Vec<Element>, Vec<Element>), AllocError>
    ensures out { IfOk result (λ both. both.0.items ≡ flat_map (λ e. option_to_list (removed_by e.body)) events.now) }
    ensures into { IfOk result (λ both. both.1.items ≡ flat_map (λ e. option_to_list (added_by e.body)) events.now) }
{
    let mut all_removed = Vec::with_capacity(alloc, events.len())?;
    let mut all_added = Vec::with_capacity(alloc, events.len())?;
    for event in events {
        let (removed, added) = effect(event);
        push(&mut all_removed, removed)?;
        push(&mut all_added, added)?;
    }
    Ok((all_removed, all_added))
}

/// Adds the element at the end, where there is one.
fn push(elements: &mut Vec<Element>, element: Option<Element>) -> Result<(), AllocError>
    ensures { OnOk result (elements.new.items ≡ elements.old.items ++ option_to_list element) }
{
    if let Some(element) = element {
        elements.push(element)?;
    }
    Ok(())
}

/// Brings the elements in their order.
fn sort(elements: &mut Vec<Element>)
    ensures sorted { IsSortedBy before elements.new.items }
    ensures same { IsPermutation elements.old.items elements.new.items }
{
    elements.sort_unstable_by(|left, right| compare(left, right));
}

/// The delta of what is removed more often than added, and of what is added more often than removed.
fn net_of_sorted(alloc: Global, removed: &[Element], added: &[Element]) -> Result<Delta, AllocError>
    requires removed { IsSortedBy before removed.now }
    requires added { IsSortedBy before added.now }
    ensures { IfOk result (λ d. d ≡ record { minus = surplus removed.now added.now; plus = surplus added.now removed.now }) }
{
    let (minus, plus) = surpluses(alloc, removed, added)?;
    Ok(Delta::of(Set::from_rising(minus), Set::from_rising(plus)))
}

/// Whether the list begins with the element.
fn stands_first(element: &Element, list: &[Element]) -> bool
    ensures { result ≡ stands_first element.now list.now }
{
    match list {
        [first, ..] => compare(element, first).is_eq(),
        [] => false,
    }
}

/// Adds the element, unless it stands in the rest of a sorted list once more.
fn push_last(kept: &mut Vec<Element>, element: Element, rest: &[Element]) -> Result<(), AllocError>
    ensures { OnOk result (kept.new.items ≡ kept.old.items ++ last_of element rest.now) }
{
    if !stands_first(&element, rest) {
        kept.push(element)?;
    }
    Ok(())
}

/// Adds each element of a sorted list, once.
fn push_each(kept: &mut Vec<Element>, list: &[Element]) -> Result<(), AllocError>
    ensures { OnOk result (kept.new.items ≡ kept.old.items ++ each_once list.now) }
{
    for (index, element) in list.iter().enumerate() {
        push_last(kept, *element, &list[index + 1..])?;
    }
    Ok(())
}

/// Each element that stands in one sorted list more often than in the other, once: those of the first
/// list, and those of the second.
fn surpluses(
    alloc: Global,
    left: &[Element],
    right: &[Element],
) -> Result<(Vec<Element>, Vec<Element>), AllocError>
    ensures first { IfOk result (λ both. both.0.items ≡ surplus left.now right.now) }
    ensures second { IfOk result (λ both. both.1.items ≡ surplus right.now left.now) }
{
    let mut first = Vec::with_capacity(alloc, left.len())?;
    let mut second = Vec::with_capacity(alloc, right.len())?;
    let mut i = 0;
    let mut j = 0;
    while i < left.len() && j < right.len() {
        match compare(&left[i], &right[j]) {
            Ordering::Less => {
                push_last(&mut first, left[i], &left[i + 1..])?;
                i += 1;
            }
            Ordering::Equal => {
                // One of each: neither list has more of them.
                i += 1;
                j += 1;
            }
            Ordering::Greater => {
                push_last(&mut second, right[j], &right[j + 1..])?;
                j += 1;
            }
        }
    }
    push_each(&mut first, &left[i..])?;
    push_each(&mut second, &right[j..])?;
    Ok((first, second))
}
