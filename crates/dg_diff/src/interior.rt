//! Interior nodes by exact deltas: no whole set is made.

ghost use Rattle.std.specs.Prelude.{◌≡◌, ◌≤◌, length, map, IfOk};
ghost use Rattle.dg_graph.specs.Elements.{IsSet};
ghost use Rattle.dg_graph.specs.DifferentialFunction.{all_of, parted, inward};
ghost use Rattle.dg_diff.specs.Sides.{on_side};

use crate::differential::{HALF, last_part};
use dg_delta::Delta;
use dg_graph::Function;
use dg_set::Set;
use std::alloc::{AllocError, Global};

/// One of the two sets of a delta.
#[derive(Clone, Copy)]
enum Side {
    Minus,
    Plus,
}

impl Side {
    /// The set of the delta on this side.
    fn of(self, delta: &Delta) -> &Set
        ensures value { result.now ≡ on_side self delta.now }
        ensures set { IsSet result.now }
    {
        match self {
            Side::Minus => delta.minus(),
            Side::Plus => delta.plus(),
        }
    }
}

/// The exact delta from the first child to the interior node, from the exact deltas that lead from
/// the first child to each other one, in the order of the children. An `Err` says that memory ran out.
pub fn inward(alloc: Global, function: Function, ways: &[Delta]) -> Result<Delta, AllocError>
    requires { 1 ≤ length ways.now }
    ensures { IfOk result (λ d. d ≡ inward function ways.now) }
{
    match function {
        Function::Intersection => {
            let minus = all(ways, Side::Minus)?;
            Ok(Delta::of(minus, Set::new(alloc)))
        }
        Function::Union => {
            let plus = all(ways, Side::Plus)?;
            Ok(Delta::of(Set::new(alloc), plus))
        }
        Function::Balanced => {
            let last = ways.len() - 1;
            part_of(&ways[last], HALF)
        }
        Function::Skewed(r) => {
            let last = ways.len() - 1;
            part_of(&ways[last], r)
        }
    }
}

/// The elements that any of the deltas has on this side, by halves, so that no element is copied more
/// often than the deltas can be halved.
fn all(ways: &[Delta], side: Side) -> Result<Set, AllocError>
    requires { 1 ≤ length ways.now }
    ensures { IfOk result (λ set. set ≡ all_of (map (on_side side) ways.now)) }
{
    let first = side.of(&ways[0]);
    if ways.len() == 1 {
        return first.copy();
    }
    if ways.len() == 2 {
        return first.union(side.of(&ways[1]));
    }
    let (front, back) = ways.split_at(ways.len() / 2);
    all(front, side)?.union(&all(back, side)?)
}

/// The elements of the delta that are in the last child's part, `r` of 256.
fn part_of(delta: &Delta, r: u16) -> Result<Delta, AllocError>
    ensures { IfOk result (λ d. d ≡ parted r delta.now) }
{
    let (minus, plus) = delta.copy()?.into_sets();
    Ok(Delta::of(last_part(minus, r), last_part(plus, r)))
}
