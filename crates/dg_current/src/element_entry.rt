//! What is kept of the element ids that changed, and its writes. Where the id has an entry, none takes
//! memory.
ghost use Rattle.std.specs.Prelude.{◌≡◌, ◌+◌, ◌≤◌, ◌<◌, ◌^◌, List, true, cond, ◌||◌, nat_lt, OnOk};
ghost use Rattle.dg_graph.specs.declared.element.Element.{Element};
ghost use Rattle.dg_graph.specs.Elements.{bit};
ghost use Rattle.indexmap.specs.IndexMap.{spare};
ghost use Rattle.dg_current.specs.ElementIds.{at, needs_id, same_id};
ghost use Rattle.dg_current.specs.HeldElements.{element_in};
ghost use Rattle.dg_current.specs.HeldGraph.{held_at, more_at, fewer_at, has_entry, KeepsEntries, KeepsHeld, KeepsUses};

use crate::element_id::ElementId;
use crate::held::Held;
use crate::sorted_graph::SortedGraph;
use dg_graph::Element;
use dg_seed::Seed;
use indexmap::IndexMap;
use std::alloc::AllocError;

/// What is kept of an element id that changed, or whose number of uses did.
#[derive(Clone, Copy)]
pub(crate) struct ElementEntry {
    /// What is held under the id now.
    pub held: Held,
    /// By how many more elements the one with the id is needed than at the start: a node by its edges,
    /// a loop counted once, and by its values; an edge by its values.
    pub more: usize,
    /// By how many fewer it is needed.
    pub fewer: usize,
}

// What the graph at the start holds under the id.
fn held_at_start(base: &SortedGraph, id: ElementId) -> Held
    ensures { element_in id result ≡ at base.now id }
{
    // It is a graph, so it has no message.
    base.facts();
    match base.element_at(id) {
        Some(element) => Held::of(&element),
        None => Held::Nothing,
    }
}

// Makes an entry for the id, unless it has one, with the element of the graph at the start. An `Err`
// says that memory ran out.
fn touch(
    elements: &mut IndexMap<ElementId, ElementEntry, Seed>,
    base: &SortedGraph,
    id: ElementId,
) -> Result<(), AllocError>
    ensures known { OnOk result (has_entry elements.new.entries id ≡ true) }
    ensures ids { KeepsEntries elements.old.entries elements.new.entries }
    ensures held { KeepsHeld base.now elements.old.entries elements.new.entries }
    ensures uses { KeepsUses elements.old.entries elements.new.entries }
{
    if elements.contains_key(&id) {
        return Ok(());
    }
    let entry = ElementEntry {
        held: held_at_start(base, id),
        more: 0,
        fewer: 0,
    };
    elements.insert(id, entry)?;
    Ok(())
}

/// Makes entries for the ids that the element needs. An `Err` says that memory ran out.
pub(crate) fn touch_needs(
    elements: &mut IndexMap<ElementId, ElementEntry, Seed>,
    base: &SortedGraph,
    element: &Element,
) -> Result<(), AllocError>
    ensures known { OnOk result ((p : ElementId) → needs_id p element.now ≡ true → has_entry elements.new.entries p ≡ true) }
    ensures ids { KeepsEntries elements.old.entries elements.new.entries }
    ensures held { KeepsHeld base.now elements.old.entries elements.new.entries }
    ensures uses { KeepsUses elements.old.entries elements.new.entries }
{
    match *element {
        Element::Node { .. } | Element::Message { .. } => Ok(()),
        Element::Edge { src, dst, .. } => {
            touch(elements, base, ElementId::Node(src))?;
            touch(elements, base, ElementId::Node(dst))
        }
        Element::NodeAttr { id, .. } => touch(elements, base, ElementId::Node(id)),
        Element::EdgeAttr { id, .. } => touch(elements, base, ElementId::Edge(id)),
    }
}

/// Writes what is held under an id that has an entry, or for whose entry there is room.
pub(crate) fn set_held(
    elements: &mut IndexMap<ElementId, ElementEntry, Seed>,
    id: ElementId,
    held: Held,
)
    requires room { (has_entry elements.old.entries id || nat_lt 0 (spare elements.old)) ≡ true }
    ensures held { (base : List Element) (p : ElementId) → held_at base elements.new.entries p ≡ cond (same_id id p) (element_in id held) (held_at base elements.old.entries p) }
    ensures uses { KeepsUses elements.old.entries elements.new.entries }
    ensures ids { (p : ElementId) → has_entry elements.new.entries p ≡ (same_id id p || has_entry elements.old.entries p) }
{
    if let Some(entry) = elements.get_mut(&id) {
        entry.held = held;
        return;
    }
    let entry = ElementEntry {
        held,
        more: 0,
        fewer: 0,
    };
    // There is room, so this cannot fail.
    elements.insert(id, entry).unwrap();
}

/// Counts one more element that needs the one with the id.
pub(crate) fn count_up(elements: &mut IndexMap<ElementId, ElementEntry, Seed>, id: ElementId)
    requires there { has_entry elements.old.entries id ≡ true }
    requires fits { more_at elements.old.entries id + 1 < fewer_at elements.old.entries id + 2 ^ 64 }
    ensures held { (base : List Element) → KeepsHeld base elements.old.entries elements.new.entries }
    ensures uses { (p : ElementId) → more_at elements.new.entries p + fewer_at elements.old.entries p ≡ more_at elements.old.entries p + fewer_at elements.new.entries p + bit (same_id id p) }
    ensures ids { (p : ElementId) → has_entry elements.new.entries p ≡ has_entry elements.old.entries p }
{
    if let Some(entry) = elements.get_mut(&id) {
        if entry.fewer > 0 {
            entry.fewer -= 1;
        } else {
            entry.more += 1;
        }
    }
}

/// Counts one element less that needs the one with the id.
pub(crate) fn count_down(elements: &mut IndexMap<ElementId, ElementEntry, Seed>, id: ElementId)
    requires there { has_entry elements.old.entries id ≡ true }
    requires fits { fewer_at elements.old.entries id + 1 < more_at elements.old.entries id + 2 ^ 64 }
    ensures held { (base : List Element) → KeepsHeld base elements.old.entries elements.new.entries }
    ensures uses { (p : ElementId) → more_at elements.old.entries p + fewer_at elements.new.entries p ≡ more_at elements.new.entries p + fewer_at elements.old.entries p + bit (same_id id p) }
    ensures ids { (p : ElementId) → has_entry elements.new.entries p ≡ has_entry elements.old.entries p }
{
    if let Some(entry) = elements.get_mut(&id) {
        if entry.more > 0 {
            entry.more -= 1;
        } else {
            entry.fewer += 1;
        }
    }
}

/// Counts the element with the ids that it needs.
pub(crate) fn count_in(elements: &mut IndexMap<ElementId, ElementEntry, Seed>, element: &Element)
    requires there { (p : ElementId) → needs_id p element.now ≡ true → has_entry elements.old.entries p ≡ true }
    requires fits { (p : ElementId) → more_at elements.old.entries p + 1 < fewer_at elements.old.entries p + 2 ^ 64 }
    ensures held { (base : List Element) → KeepsHeld base elements.old.entries elements.new.entries }
    ensures uses { (p : ElementId) → more_at elements.new.entries p + fewer_at elements.old.entries p ≡ more_at elements.old.entries p + fewer_at elements.new.entries p + bit (needs_id p element.now) }
    ensures ids { (p : ElementId) → has_entry elements.new.entries p ≡ has_entry elements.old.entries p }
{
    match *element {
        Element::Node { .. } | Element::Message { .. } => {}
        Element::Edge { src, dst, .. } => {
            count_up(elements, ElementId::Node(src));
            if src != dst {
                count_up(elements, ElementId::Node(dst));
            }
        }
        Element::NodeAttr { id, .. } => count_up(elements, ElementId::Node(id)),
        Element::EdgeAttr { id, .. } => count_up(elements, ElementId::Edge(id)),
    }
}

/// Counts the element no longer with the ids that it needs.
pub(crate) fn count_out(elements: &mut IndexMap<ElementId, ElementEntry, Seed>, element: &Element)
    requires there { (p : ElementId) → needs_id p element.now ≡ true → has_entry elements.old.entries p ≡ true }
    requires fits { (p : ElementId) → fewer_at elements.old.entries p + 1 < more_at elements.old.entries p + 2 ^ 64 }
    ensures held { (base : List Element) → KeepsHeld base elements.old.entries elements.new.entries }
    ensures uses { (p : ElementId) → more_at elements.old.entries p + fewer_at elements.new.entries p ≡ more_at elements.new.entries p + fewer_at elements.old.entries p + bit (needs_id p element.now) }
    ensures ids { (p : ElementId) → has_entry elements.new.entries p ≡ has_entry elements.old.entries p }
{
    match *element {
        Element::Node { .. } | Element::Message { .. } => {}
        Element::Edge { src, dst, .. } => {
            count_down(elements, ElementId::Node(src));
            if src != dst {
                count_down(elements, ElementId::Node(dst));
            }
        }
        Element::NodeAttr { id, .. } => count_down(elements, ElementId::Node(id)),
        Element::EdgeAttr { id, .. } => count_down(elements, ElementId::Edge(id)),
    }
}
