//! The ends of the edges of a set, for how many edges a node has.
ghost use Rattle.std.specs.Prelude.{◌≡◌, ℕ, ◌+◌, ◌==◌, IfOk, OnOk};
ghost use Rattle.std.specs.List.{count_by};
ghost use Rattle.std.specs.List.Sorted.{IsNonDecreasing};
ghost use Rattle.dg_graph.specs.Elements.{bit};
ghost use Rattle.dg_current.specs.Sorted.{AreEndsOf, has_end};

use dg_graph::Element;
use std::alloc::{AllocError, AllocFailed, Global};

// Puts the ends of the element, where it is an edge, at the end of the list: that of a loop once.
fn push_ends(ends: &mut Vec<u64>, element: &Element) -> Result<(), AllocFailed<u64>>
    ensures { OnOk result ((id : ℕ) → count_by (λ end. end == id) ends.new.items ≡ count_by (λ end. end == id) ends.old.items + bit (has_end id element.now)) }
{
    if let Element::Edge { src, dst, .. } = *element {
        ends.push(src)?;
        if src != dst {
            ends.push(dst)?;
        }
    }
    Ok(())
}

/// The ends of the edges among the items in their order, each as often as edges have it.
pub(crate) fn sorted_ends(alloc: Global, items: &[Element]) -> Result<Vec<u64>, AllocError>
    ensures { IfOk result (λ ends. AreEndsOf items.now ends.items) }
{
    let mut ends = Vec::new(alloc);
    for element in items {
        push_ends(&mut ends, element)?;
    }
    ends.sort_unstable();
    Ok(ends)
}

/// How many of the ends, in their order, are this one.
pub(crate) fn count_sorted(ends: &[u64], id: u64) -> usize
    requires { IsNonDecreasing ends.now }
    ensures { result ≡ count_by (λ end. end == id) ends.now }
{
    ends.partition_point(|end| *end <= id) - ends.partition_point(|end| *end < id)
}

// Whether the element is an edge with this end.
fn has_end(element: &Element, id: u64) -> bool
    ensures { result ≡ has_end id element.now }
{
    match *element {
        Element::Edge { src, dst, .. } => src == id || dst == id,
        _ => false,
    }
}

/// How many edges among the items have this end. Passes over all of them.
pub(crate) fn count_edges(items: &[Element], id: u64) -> usize
    ensures { result ≡ count_by (has_end id) items.now }
{
    let mut count = 0;
    for element in items {
        if has_end(element, id) {
            count += 1;
        }
    }
    count
}
