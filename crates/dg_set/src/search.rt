//! An element of a set by binary search, from its middle or from its front on; where a list stops rising.
ghost use Rattle.std.specs.Prelude.{◌≡◌, ◌≤◌, length, IfOk, IfErr, IfSome, IfNone};
ghost use Rattle.dg_graph.specs.Elements.{IsSet};
ghost use Rattle.dg_set.specs.Indices.{StandsAt, BelongsAt, IsFirstFault, IsWithin, IsRange};

use dg_graph::Element;
use std::cmp::Ordering;

/// The index of the element among the items of a set; an `Err` gives the index where it belongs.
pub(crate) fn index_of(items: &[Element], element: &Element) -> Result<usize, usize>
    requires { IsSet items.now }
    ensures found { IfOk result (λ index. StandsAt element.now items.now index) }
    ensures lacks { IfErr result (λ index. BelongsAt element.now items.now index) }
{
    items.binary_search(element)
}

/// Where the items of a set that come before the element end, and where those that come after it begin.
/// Those in front of `from` are known to come before it. The end is sought from there on, by steps that
/// double: the nearer it is, the fewer items are compared.
pub(crate) fn range_from(items: &[Element], from: usize, element: &Element) -> (usize, usize)
    requires set { IsSet items.now }
    requires front { IsWithin element.now items.now from (length items.now) }
    ensures range { IsRange element.now items.now result.0 result.1 }
    ensures behind { from ≤ result.0 }
{
    let mut low = from;
    let mut step = 1;
    while step <= items.len() - low {
        let probe = low + step - 1;
        match items[probe].cmp(element) {
            Ordering::Less => {
                low += step;
                step = step.saturating_mul(2);
            }
            Ordering::Equal => return (probe, probe + 1),
            Ordering::Greater => return range_within(items, low, probe, element),
        }
    }
    range_within(items, low, items.len(), element)
}

/// The same, with the end sought from the last item on: the nearer it is to it, the fewer items are compared.
pub(crate) fn range_to(items: &[Element], element: &Element) -> (usize, usize)
    requires { IsSet items.now }
    ensures { IsRange element.now items.now result.0 result.1 }
{
    let mut high = items.len();
    let mut step = 1;
    while step <= high {
        let probe = high - step;
        match items[probe].cmp(element) {
            Ordering::Less => return range_within(items, probe + 1, high, element),
            Ordering::Equal => return (probe, probe + 1),
            Ordering::Greater => {
                high = probe;
                step = step.saturating_mul(2);
            }
        }
    }
    range_within(items, 0, high, element)
}

/// The same by a binary search, where the items from `to` on are known to come after the element.
fn range_within(items: &[Element], from: usize, to: usize, element: &Element) -> (usize, usize)
    requires set { IsSet items.now }
    requires within { IsWithin element.now items.now from to }
    ensures range { IsRange element.now items.now result.0 result.1 }
    ensures behind { from ≤ result.0 }
{
    let mut low = from;
    let mut high = to;
    while low < high {
        let middle = low + (high - low) / 2;
        match items[middle].cmp(element) {
            Ordering::Less => low = middle + 1,
            Ordering::Equal => return (middle, middle + 1),
            Ordering::Greater => high = middle,
        }
    }
    (low, low)
}

/// The first index whose item is not greater than the one before it.
pub(crate) fn first_fault(items: &[Element]) -> Option<usize>
    ensures rises { IfNone result (IsSet items.now) }
    ensures fault { IfSome result (λ index. IsFirstFault items.now index) }
{
    for index in 1..items.len() {
        if items[index - 1].cmp(&items[index]).is_ge() {
            return Some(index);
        }
    }
    None
}
