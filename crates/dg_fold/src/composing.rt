//! Composing what is written for one target, by halves.

ghost use Rattle.std.specs.Prelude.{◌≡◌, map, IfOk};
ghost use Rattle.std.specs.List.{All};
ghost use Rattle.dg_fold.specs.Writings.{composed_all, is_for, written_for};
ghost use Rattle.dg_graph.specs.Composition.{Composes, IsDelta};

use crate::halves::{Weighed, middle_of};
use crate::net::{joined, joined_on};
use crate::writing::Writing;
use dg_delta::Delta;
use std::alloc::{AllocError, Global};

impl Weighed for &Delta {
    // The elements that it names, and one more.
    fn weight(&self) -> u64 {
        let named = self.minus().len().saturating_add(self.plus().len());
        named.saturating_add(1)
    }
}

/// Whether the delta is for the target of this number, from 0.
pub fn is_for(writing: &Writing, target: usize) -> bool
    ensures { result ≡ is_for target writing.now }
{
    let targets = &writing.targets;
    target < targets.len() && targets[target]
}

// The deltas that are for the target, in order.
fn deltas_for(alloc: Global, writings: &[Writing], target: usize) -> Result<Vec<&Delta>, AllocError>
    ensures deltas { IfOk result (λ v. map (λ d. d.now) v.items ≡ written_for target writings.now) }
    ensures each { IfOk result (λ v. All IsDelta (map (λ d. d.now) v.items)) }
{
    let mut deltas = Vec::new(alloc);
    for writing in writings {
        if is_for(writing, target) {
            // Its clause says that the sets of a delta share no element.
            writing.delta.minus();
            deltas.push(&writing.delta)?;
        }
    }
    Ok(deltas)
}

/// The composition of the deltas, in order. They are cut where what they name is halved, and a first delta that stands alone is
/// merged and not copied: so a first delta that names more than all others is gone over once, and no element of the
/// others is copied more often than about twice the logarithm of how many are named. An `Err` says that memory ran out.
pub fn composed(alloc: Global, deltas: &[&Delta]) -> Result<Delta, AllocError>
    ensures { IfOk result (λ d. Composes d (map (λ e. e.now) deltas.now)) }
{
    if deltas.len() <= 1 {
        return match deltas.first() {
            None => Ok(Delta::new(alloc)),
            Some(delta) => delta.copy(),
        };
    }
    let (left, right) = deltas.split_at(middle_of(deltas));
    let then = composed(alloc, right)?;
    if left.len() == 1 {
        return joined_on(left[0], then);
    }
    let first = composed(alloc, left)?;
    joined(first, then)
}

/// What the writings come to for the target of this number, as one delta. They are composed by halves, cut where what
/// they name is halved, so that the elements of a delta are copied about as often as the logarithm of how many are
/// named; a first delta that names more than all others is merged once. An `Err` says that memory ran out.
pub fn compose_for(alloc: Global, writings: &[Writing], target: usize) -> Result<Delta, AllocError>
    ensures { IfOk result (λ d. d ≡ composed_all (written_for target writings.now)) }
{
    let deltas = deltas_for(alloc, writings, target)?;
    let delta = composed(alloc, &deltas)?;
    // Its clause says that the sets share no element, so that the delta is what it says of each.
    delta.minus();
    Ok(delta)
}
