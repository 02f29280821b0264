//! Meets and differences of sets, each as one merge of two sorted lists.
ghost use Rattle.std.specs.Prelude.{◌≡◌, ◌↔◌, IfOk, IsTrue};
ghost use Rattle.dg_graph.specs.Elements.{IsSet};
ghost use Rattle.dg_graph.specs.Sets.{met, without_all};
ghost use Rattle.dg_set.specs.Apart.{AreApart};

use dg_graph::Element;
use std::alloc::{AllocError, Global};
use std::cmp::Ordering;

/// The items of both sets. An `Err` says that memory ran out.
pub(crate) fn meet(
    alloc: Global,
    left: &[Element],
    right: &[Element],
) -> Result<Vec<Element>, AllocError>
    requires left_set { IsSet left.now }
    requires right_set { IsSet right.now }
    ensures { IfOk result (λ both. both.items ≡ met left.now right.now) }
{
    let mut both = Vec::with_capacity(alloc, left.len().min(right.len()))?;
    let mut i = 0;
    let mut j = 0;
    while i < left.len() && j < right.len() {
        match left[i].cmp(&right[j]) {
            Ordering::Less => i += 1,
            Ordering::Equal => {
                both.push(left[i])?;
                i += 1;
                j += 1;
            }
            Ordering::Greater => j += 1,
        }
    }
    Ok(both)
}

/// The items of `left` that `right` does not have, and those of `right` that `left` does not have.
/// An `Err` says that memory ran out.
pub(crate) fn differences(
    alloc: Global,
    left: &[Element],
    right: &[Element],
) -> Result<(Vec<Element>, Vec<Element>), AllocError>
    requires left_set { IsSet left.now }
    requires right_set { IsSet right.now }
    ensures first { IfOk result (λ both. both.0.items ≡ without_all left.now right.now) }
    ensures second { IfOk result (λ both. both.1.items ≡ without_all right.now left.now) }
{
    let mut first = Vec::with_capacity(alloc, left.len())?;
    let mut second = Vec::with_capacity(alloc, right.len())?;
    let mut i = 0;
    let mut j = 0;
    while i < left.len() && j < right.len() {
        match left[i].cmp(&right[j]) {
            Ordering::Less => {
                first.push(left[i])?;
                i += 1;
            }
            Ordering::Equal => {
                i += 1;
                j += 1;
            }
            Ordering::Greater => {
                second.push(right[j])?;
                j += 1;
            }
        }
    }
    first.extend_from_slice(&left[i..])?;
    second.extend_from_slice(&right[j..])?;
    Ok((first, second))
}

/// Whether two sets share no element.
pub fn are_apart(left: &[Element], right: &[Element]) -> bool
    requires left_set { IsSet left.now }
    requires right_set { IsSet right.now }
    ensures { IsTrue result ↔ AreApart left.now right.now }
{
    let mut i = 0;
    let mut j = 0;
    while i < left.len() && j < right.len() {
        match left[i].cmp(&right[j]) {
            Ordering::Less => i += 1,
            Ordering::Equal => return false,
            Ordering::Greater => j += 1,
        }
    }
    true
}
