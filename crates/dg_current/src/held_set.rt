//! What the entries of a graph that changes take from the elements at the start, and what they add.
ghost use Rattle.std.specs.Prelude.{◌≡◌, ◌<◌, ◌++◌, length, slice_index_or, IfOk, OnOk};
ghost use Rattle.std.specs.Map.{keys_of};
ghost use Rattle.std.specs.Option.{option_to_list};
ghost use Rattle.dg_current.specs.HeldSet.{only_first, lost_at, gained_at, listed};

use crate::element_entry::ElementEntry;
use crate::element_id::ElementId;
use crate::sorted_graph::SortedGraph;
use dg_graph::Element;
use dg_seed::Seed;
use indexmap::IndexMap;
use std::alloc::{AllocError, Global};

// The first element, where the other one is not the same.
fn only_first(first: Option<Element>, other: Option<Element>) -> Option<Element>
    ensures { result ≡ only_first first other }
{
    let element = first?;
    match other {
        Some(there) => {
            if there.cmp(&element).is_eq() {
                None
            } else {
                Some(element)
            }
        }
        None => Some(element),
    }
}

// Adds the element at the end, where there is one.
fn push(elements: &mut Vec<Element>, element: Option<Element>) -> Result<(), AllocError>
    ensures { OnOk result (elements.new.items ≡ elements.old.items ++ option_to_list element) }
{
    if let Some(element) = element {
        elements.push(element)?;
    }
    Ok(())
}

// What the entry at the index takes from the start, and what it adds: nothing of either, where the element
// with its id is as at the start.
fn change_at(
    base: &SortedGraph,
    elements: &IndexMap<ElementId, ElementEntry, Seed>,
    index: usize,
) -> (Option<Element>, Option<Element>)
    requires { index < length elements.now.entries }
    ensures lost { (d : ElementId) → result.0 ≡ lost_at base.now elements.now.entries (slice_index_or (keys_of elements.now.entries) index d) }
    ensures gained { (d : ElementId) → result.1 ≡ gained_at base.now elements.now.entries (slice_index_or (keys_of elements.now.entries) index d) }
{
    let (id, entry) = elements.get_index(index).unwrap();
    let before = base.element_at(*id);
    let now = entry.held.element(*id);
    (only_first(before, now), only_first(now, before))
}

/// What the entries take from the start, and what they add, one after another. An `Err` says that memory
/// ran out.
pub(crate) fn changes(
    alloc: Global,
    base: &SortedGraph,
    elements: &IndexMap<ElementId, ElementEntry, Seed>,
) -> Result<(Vec<Element>, Vec<Element>), AllocError>
    ensures lost { IfOk result (λ both. both.0.items ≡ listed (lost_at base.now elements.now.entries) (keys_of elements.now.entries)) }
    ensures gained { IfOk result (λ both. both.1.items ≡ listed (gained_at base.now elements.now.entries) (keys_of elements.now.entries)) }
{
    let mut all_lost = Vec::new(alloc);
    let mut all_gained = Vec::new(alloc);
    for index in 0..elements.len() {
        let (lost, gained) = change_at(base, elements, index);
        push(&mut all_lost, lost)?;
        push(&mut all_gained, gained)?;
    }
    Ok((all_lost, all_gained))
}
