//! The set of an interior node from those of its children, by the differential function.
ghost use Rattle.std.specs.Prelude.{◌≡◌, ◌&&◌, ◌<◌, length, filter, IfOk, if◌then◌else◌};
ghost use Rattle.std.specs.List.{list_all, list_any};
ghost use Rattle.dg_graph.specs.declared.element.Element.{Element};
ghost use Rattle.dg_graph.specs.Elements.{has};
ghost use Rattle.dg_graph.specs.DifferentialFunction.{part, in_combined};

use crate::hash::part;
use dg_graph::Function;
use dg_set::Set;
use std::alloc::AllocError;

/// The balanced function takes this many of 256 elements from the last child: half of them.
pub(crate) const HALF: u16 = 128;

/// The set of an interior node from those of its children, first to last. Its memory comes from the
/// allocator of the first child. An `Err` says that memory ran out.
pub fn combine(f: Function, sets: &[Set]) -> Result<Set, AllocError>
    requires { 0 < length sets.now }
    ensures { IfOk result (λ set. (x : Element) → has set x ≡ in_combined f sets.now x) }
{
    if sets.len() == 1 {
        return sets[0].copy();
    }
    match f {
        Function::Intersection => meet_all(sets),
        Function::Union => union_all(sets),
        Function::Balanced => skew(&sets[0], &sets[sets.len() - 1], HALF),
        Function::Skewed(r) => skew(&sets[0], &sets[sets.len() - 1], r),
    }
}

/// The elements of every set.
fn meet_all(sets: &[Set]) -> Result<Set, AllocError>
    requires { 1 < length sets.now }
    ensures { IfOk result (λ all. (x : Element) → has all x ≡ list_all (λ set. has set x) sets.now) }
{
    let mut all = sets[0].meet(&sets[1])?;
    for set in &sets[2..] {
        all = all.meet(set)?;
    }
    Ok(all)
}

/// The elements of at least one set, by halves, so that no element is copied more often than the sets
/// can be halved.
fn union_all(sets: &[Set]) -> Result<Set, AllocError>
    requires { 1 < length sets.now }
    ensures { IfOk result (λ all. (x : Element) → has all x ≡ list_any (λ set. has set x) sets.now) }
{
    if sets.len() == 2 {
        return sets[0].union(&sets[1]);
    }
    if sets.len() == 3 {
        return sets[0].union(&sets[1])?.union(&sets[2]);
    }
    let (left, right) = sets.split_at(sets.len() / 2);
    union_all(left)?.union(&union_all(right)?)
}

/// The elements of `last` in its part, `r` of 256, and those of `first` in the other. Only elements that
/// one of the two lacks are hashed.
fn skew(first: &Set, last: &Set, r: u16) -> Result<Set, AllocError>
    ensures { IfOk result (λ set. (x : Element) → has set x ≡ (if part x r then has last.now x else has first.now x)) }
{
    let (gone, come) = first.differences(last)?;
    first.replaced(&last_part(gone, r), &last_part(come, r))
}

/// The elements of the set that are in the last child's part, `r` of 256. Takes no memory.
pub(crate) fn last_part(set: Set, r: u16) -> Set
    ensures { result ≡ filter (λ x. part x r) set }
{
    let mut items = set.into_items();
    items.retain(|element| part(element, r));
    Set::from_rising(items)
}
