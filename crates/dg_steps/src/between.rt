//! The exact steps from one node of a tree to another, by the steps in which their paths differ.

ghost use Rattle.std.specs.Prelude.{◌≡◌, ◌+◌, ◌-◌, ◌<◌, ℕ, get_or, length, map, IfOk};
ghost use Rattle.dg_graph.specs.Composition.{Composes, IsDelta, nothing};
ghost use Rattle.dg_steps.specs.TreeSteps.{exact_of};
ghost use Rattle.dg_steps.specs.TreeStepWalks.{IsOver, backs, is_own, ons, over, takes_it};

use crate::crossing::Crossing;
use dg_delta::Delta;
use dg_fold::composed;
use std::alloc::{AllocError, Global};

// Whether the path to the node of this number takes the step.
fn takes_it(step: &Crossing, node: usize) -> bool
    ensures { result ≡ takes_it node step.now.takes.items }
{
    let takes = &step.takes;
    node < takes.len() && takes[node]
}

// Whether the path to the node takes the step, and that to the other does not.
fn is_own(step: &Crossing, node: usize, other: usize) -> bool
    ensures { result ≡ is_own node other step.now.takes.items }
{
    takes_it(step, node) && !takes_it(step, other)
}

// What the first node's own steps do the other way, the last first.
fn backs_of(
    alloc: Global,
    kept: &[Crossing],
    from: usize,
    to: usize,
) -> Result<Vec<&Delta>, AllocError>
    ensures { IfOk result (λ v. map (λ d. d.now) v.items ≡ backs from to kept.now) }
{
    let mut deltas = Vec::new(alloc);
    for step in kept {
        if is_own(step, from, to) {
            deltas.push(&step.back)?;
        }
    }
    deltas.reverse();
    Ok(deltas)
}

// What the other node's own steps do, in order.
fn ons_of(
    alloc: Global,
    kept: &[Crossing],
    from: usize,
    to: usize,
) -> Result<Vec<&Delta>, AllocError>
    ensures { IfOk result (λ v. map (λ d. d.now) v.items ≡ ons from to kept.now) }
{
    let mut deltas = Vec::new(alloc);
    for step in kept {
        if is_own(step, to, from) {
            deltas.push(&step.on)?;
        }
    }
    Ok(deltas)
}

// What leads from one node to another: back along its own steps, and on along those of the other.
fn walk_over(alloc: Global, kept: &[Crossing], from: usize, to: usize) -> Result<Delta, AllocError>
    ensures { IfOk result (λ d. Composes d (over from to kept.now)) }
{
    let mut deltas = backs_of(alloc, kept, from, to)?;
    let mut ons = ons_of(alloc, kept, from, to)?;
    deltas.append(&mut ons)?;
    composed(alloc, &deltas)
}

// What one delta puts in and the other takes out, and the other way round.
fn exact_of(on: &Delta, back: &Delta) -> Result<Delta, AllocError>
    ensures value { IfOk result (λ d. d ≡ exact_of on.now back.now) }
    ensures on_is { IsDelta on.now }
    ensures back_is { IsDelta back.now }
{
    let minus = on.minus().meet(back.plus())?;
    let plus = on.plus().meet(back.minus())?;
    Ok(Delta::of(minus, plus))
}

// The exact step from one node to another.
fn step_over(alloc: Global, kept: &[Crossing], from: usize, to: usize) -> Result<Delta, AllocError>
    ensures { IfOk result (λ d. IsOver from to kept.now d) }
{
    let on = walk_over(alloc, kept, from, to)?;
    let back = walk_over(alloc, kept, to, from)?;
    exact_of(&on, &back)
}

/// The exact steps from each of so many nodes to the next one.
pub(crate) fn steps_over(
    alloc: Global,
    kept: &[Crossing],
    count: usize,
) -> Result<Vec<Delta>, AllocError>
    ensures count { IfOk result (λ v. length v.items ≡ count - 1) }
    ensures each { IfOk result (λ v. (n : ℕ) → n + 1 < count → IsOver n (n + 1) kept.now (get_or v.items n nothing)) }
{
    let gaps = count.saturating_sub(1);
    let mut steps = Vec::with_capacity(alloc, gaps)?;
    for n in 0..gaps {
        steps.push(step_over(alloc, kept, n, n + 1)?)?;
    }
    Ok(steps)
}
