//! The effects of events, each of one element, and the last one of each element.

ghost use Rattle.std.specs.Prelude.{◌≡◌, ◌++◌, ◌∷◌, ◌<◌, false, true, length, drop, filter, map, reverse, IfOk, OnOk};
ghost use Rattle.std.specs.List.{flat_map};
ghost use Rattle.std.specs.List.Sorted.{IsSortedBy, IsStableBy};
ghost use Rattle.dg_graph.specs.Composition.{Composes};
ghost use Rattle.dg_graph.specs.Effect.{removed_by, added_by};
ghost use Rattle.dg_net.specs.Lists.{counts};
ghost use Rattle.dg_net.specs.EventMarks.{word_of, marks_of, earlier, names_first, lasts};

use dg_delta::{Delta, Element, Set};
use dg_event::{Event, compare, effect};
use std::alloc::{AllocError, Global};

/// One element that goes out or comes in.
#[derive(Clone, Copy)]
pub(crate) struct Mark {
    element: Element,
    puts_in: bool,
}

/// Whether the event is up to the instant. Where there is none, each event is.
fn counts(event: &Event, until: Option<u64>) -> bool
    ensures { result ≡ counts until event.now }
{
    match until {
        Some(t) => event.time <= t,
        None => true,
    }
}

/// Adds the marks of an element that goes out and of one that comes in, where there are such.
#[inline(always)]
fn push_marks(
    marks: &mut Vec<Mark>,
    out: Option<Element>,
    into: Option<Element>,
) -> Result<(), AllocError>
    ensures { OnOk result (marks.new.items ≡ marks.old.items ++ marks_of out into) }
{
    if let Some(element) = out {
        marks.push(Mark {
            element,
            puts_in: false,
        })?;
    }
    if let Some(element) = into {
        marks.push(Mark {
            element,
            puts_in: true,
        })?;
    }
    Ok(())
}

/// As many marks as the events can have, or more. Room that no mark takes costs no memory.
fn marks_most(events: &[Event]) -> usize {
    events.len().saturating_mul(2)
}

/// The marks of the events up to the instant, or of all where there is none.
pub(crate) fn marks_on(
    alloc: Global,
    events: &[Event],
    until: Option<u64>,
) -> Result<Vec<Mark>, AllocError>
    ensures { IfOk result (λ marks. marks.items ≡ flat_map (λ e. marks_of (removed_by e.body) (added_by e.body)) (filter (counts until) events.now)) }
{
    let mut marks = Vec::with_capacity(alloc, marks_most(events))?;
    for event in events {
        if counts(event, until) {
            let (removed, added) = effect(event);
            push_marks(&mut marks, removed, added)?;
        }
    }
    Ok(marks)
}

/// The marks of the events on the way back, from the last one.
pub(crate) fn marks_back(alloc: Global, events: &[Event]) -> Result<Vec<Mark>, AllocError>
    ensures { IfOk result (λ marks. marks.items ≡ flat_map (λ e. marks_of (added_by e.body) (removed_by e.body)) (reverse events.now)) }
{
    let mut marks = Vec::with_capacity(alloc, marks_most(events))?;
    for event in events.iter().rev() {
        let (removed, added) = effect(event);
        push_marks(&mut marks, added, removed)?;
    }
    Ok(marks)
}

/// Brings the marks in the order of their elements; those of one element keep their order.
fn sort(marks: &mut Vec<Mark>) -> Result<(), AllocError>
    ensures sorted { OnOk result (IsSortedBy earlier marks.new.items) }
    ensures stable { IsStableBy earlier marks.old.items marks.new.items }
{
    marks.sort_by(|left, right| compare(&left.element, &right.element))
}

/// Whether the mark at the index is of the element. None is at the end of the marks.
fn is_of(element: &Element, marks: &[Mark], index: usize) -> bool
    ensures { result ≡ names_first element.now (drop index marks.now) }
{
    if index < marks.len() {
        compare(element, &marks[index].element).is_eq()
    } else {
        false
    }
}

// How many of the marks put an element in.
fn put_in(marks: &[Mark]) -> usize {
    marks.iter().filter(|mark| mark.puts_in).count()
}

/// The elements of whose marks the last takes out, and those of whose marks the last puts in, where
/// the marks of an element follow one another.
fn lasts(alloc: Global, marks: &[Mark]) -> Result<(Vec<Element>, Vec<Element>), AllocError>
    ensures out { IfOk result (λ sets. sets.0.items ≡ lasts false marks.now) }
    ensures into { IfOk result (λ sets. sets.1.items ≡ lasts true marks.now) }
{
    let into = put_in(marks);
    let mut minus = Vec::with_capacity(alloc, marks.len().saturating_sub(into))?;
    let mut plus = Vec::with_capacity(alloc, into)?;
    for index in 0..marks.len() {
        let mark = marks[index];
        if !is_of(&mark.element, marks, index + 1) {
            if mark.puts_in {
                plus.push(mark.element)?;
            } else {
                minus.push(mark.element)?;
            }
        }
    }
    Ok((minus, plus))
}

/// The delta of the last marks of each element, where the marks are in the order of their elements.
fn net_of_sorted(alloc: Global, marks: &[Mark]) -> Result<Delta, AllocError>
    requires { IsSortedBy earlier marks.now }
    ensures { IfOk result (λ d. d ≡ record { minus = lasts false marks.now; plus = lasts true marks.now }) }
{
    let (minus, plus) = lasts(alloc, marks)?;
    Ok(Delta::of(Set::from_rising(minus), Set::from_rising(plus)))
}

/// The net of the marks: of each element the last one decides.
pub(crate) fn net_of(alloc: Global, mut marks: Vec<Mark>) -> Result<Delta, AllocError>
    ensures { IfOk result (λ d. Composes d (map word_of marks.items)) }
{
    sort(&mut marks)?;
    net_of_sorted(alloc, &marks)
}
