//! How many elements graphs have of each kind.
ghost use Rattle.std.specs.Prelude.{◌≡◌, ℕ, ◌+◌, ◌≤◌, ◌<◌, ◌^◌, true, false, if◌then◌else◌, length};
ghost use Rattle.dg_pool.specs.declared.slots.Base.TheVariants as bases;
ghost use Rattle.dg_pool.specs.declared.slots.Slot.{Slot};
ghost use Rattle.dg_pool.specs.Counts.{kind_count, one_more, one_less, no_elements, counts_at, counts_shown, base_counts};
ghost use Rattle.dg_query.specs.Queries.{counts_of};

use crate::slots::Base;
use dg_graph::{Columns, Element};
use dg_query::Counts;

/// The counts of the empty graph.
pub(crate) const NO_ELEMENTS: Counts = Counts {
    nodes: 0,
    edges: 0,
    node_attrs: 0,
    edge_attrs: 0,
    messages: 0,
};

/// The counts of slots that all have the empty graph.
pub(crate) fn no_counts() -> [Counts; 128]
    ensures len { length result ≡ 128 }
    ensures none { (s : ℕ) → counts_at result s ≡ no_elements }
{
    [NO_ELEMENTS; 128]
}

/// One more of the element's kind.
#[inline(always)]
pub(crate) fn one_more(counts: Counts, element: &Element) -> Counts
    requires { kind_count counts element.now + 1 < 2 ^ 64 }
    ensures { result ≡ one_more counts element.now }
{
    let mut more = counts;
    match element {
        Element::Node { .. } => more.nodes += 1,
        Element::Edge { .. } => more.edges += 1,
        Element::NodeAttr { .. } => more.node_attrs += 1,
        Element::EdgeAttr { .. } => more.edge_attrs += 1,
        Element::Message { .. } => more.messages += 1,
    }
    more
}

/// One less of the element's kind.
#[inline(always)]
pub(crate) fn one_less(counts: Counts, element: &Element) -> Counts
    requires { 1 ≤ kind_count counts element.now }
    ensures { result ≡ one_less counts element.now }
{
    let mut less = counts;
    match element {
        Element::Node { .. } => less.nodes -= 1,
        Element::Edge { .. } => less.edges -= 1,
        Element::NodeAttr { .. } => less.node_attrs -= 1,
        Element::EdgeAttr { .. } => less.edge_attrs -= 1,
        Element::Message { .. } => less.messages -= 1,
    }
    less
}

/// The counts of a graph after the element is put in or taken out.
#[inline(always)]
pub(crate) fn with_change(counts: Counts, element: &Element, on: bool) -> Counts
    requires more { on ≡ true → kind_count counts element.now + 1 < 2 ^ 64 }
    requires less { on ≡ false → 1 ≤ kind_count counts element.now }
    ensures { result ≡ (if on then one_more counts element.now else one_less counts element.now) }
{
    if on {
        one_more(counts, element)
    } else {
        one_less(counts, element)
    }
}

// Counts one more of the element's kind.
#[inline(always)]
fn add_one(counts: &mut Counts, element: &Element)
    requires { kind_count counts.old element.now + 1 < 2 ^ 64 }
    ensures { counts.new ≡ one_more counts.old element.now }
{
    match element {
        Element::Node { .. } => counts.nodes += 1,
        Element::Edge { .. } => counts.edges += 1,
        Element::NodeAttr { .. } => counts.node_attrs += 1,
        Element::EdgeAttr { .. } => counts.edge_attrs += 1,
        Element::Message { .. } => counts.messages += 1,
    }
}

// Counts one less of the element's kind.
#[inline(always)]
fn take_one(counts: &mut Counts, element: &Element)
    requires { 1 ≤ kind_count counts.old element.now }
    ensures { counts.new ≡ one_less counts.old element.now }
{
    match element {
        Element::Node { .. } => counts.nodes -= 1,
        Element::Edge { .. } => counts.edges -= 1,
        Element::NodeAttr { .. } => counts.node_attrs -= 1,
        Element::EdgeAttr { .. } => counts.edge_attrs -= 1,
        Element::Message { .. } => counts.messages -= 1,
    }
}

/// Counts the element where it is put in, or no longer where it is taken out.
#[inline(always)]
pub(crate) fn change_count(counts: &mut Counts, element: &Element, on: bool)
    requires more { on ≡ true → kind_count counts.old element.now + 1 < 2 ^ 64 }
    requires less { on ≡ false → 1 ≤ kind_count counts.old element.now }
    ensures { counts.new ≡ (if on then one_more counts.old element.now else one_less counts.old element.now) }
{
    if on {
        add_one(counts, element);
    } else {
        take_one(counts, element);
    }
}

// The count, where its column is asked for.
fn if_asked(asked: bool, count: u64) -> u64
    ensures { result ≡ (if asked then count else 0) }
{
    if asked { count } else { 0 }
}

/// The counts of a graph that is cut to the columns.
pub(crate) fn counts_shown(counts: Counts, cols: Columns) -> Counts
    ensures { result ≡ counts_shown counts cols }
{
    Counts {
        nodes: counts.nodes,
        edges: counts.edges,
        node_attrs: if_asked(cols.nodes_attr, counts.node_attrs),
        edge_attrs: if_asked(cols.edges_attr, counts.edge_attrs),
        messages: if_asked(cols.transient, counts.messages),
    }
}

/// The counts that are kept of a base.
pub(crate) fn base_counts(counts: &[Counts; 128], base: Base) -> Counts
    requires { (b : Slot) → base ≡ bases.Slot b → b.0 ≤ 127 }
    ensures { result ≡ base_counts counts.now base }
{
    match base {
        Base::Nothing => NO_ELEMENTS,
        Base::Now => counts[0],
        Base::Slot(b) => counts[b.0 as usize],
    }
}

/// How many of the elements there are of each kind.
pub(crate) fn count_kinds(items: &[Element]) -> Counts
    ensures { result ≡ counts_of items.now }
{
    let mut counts = NO_ELEMENTS;
    for element in items {
        counts = one_more(counts, element);
    }
    counts
}
