//! The children of an interior node, by exact deltas.

ghost use Rattle.std.specs.Prelude.{◌≡◌, ◌↔◌, ◌≤◌, ◌++◌, ◌∷◌, [], false, None, List, length, map, take, drop, IfOk, IfErr, OnOk, IsTrue};
ghost use Rattle.dg_graph.specs.Composition.{Delta, IsDelta, chained, nothing};
ghost use Rattle.dg_index.specs.ExactSteps.{downs, ways_of};
ghost use Rattle.dg_build.specs.InteriorDeltas.{last_way, stored_delta};
ghost use Rattle.dg_build.specs.SpelledRecords.{is_wide, first_wide, IsFaultOfDeltas};

use crate::fault::BuildFault;
use crate::records::add_delta;
use dg_delta::Delta;
use dg_segment::Segment;
use std::alloc::{AllocError, Global};
use std::collections::VecDeque;

/// Takes the first of a row of steps.
pub(crate) fn next_step(row: &mut VecDeque<Delta>) -> Delta
    requires { 1 ≤ length row.old.items }
    ensures { row.old.items ≡ result ∷ row.new.items }
{
    row.pop_front().unwrap()
}

// Whether the delta changes nothing, as that between a node and its first child does where nothing is taken out.
fn is_nothing(delta: &Delta) -> bool
    ensures { IsTrue result ↔ delta.now ≡ nothing }
{
    delta.minus().len() == 0 && delta.plus().len() == 0
}

// Tells the proofs that its sets rise, and share no element. It does nothing.
fn is_delta(delta: &Delta)
    ensures { IsDelta delta.now }
{
    delta.minus();
}

// The exact delta over one and then a later one, which is let go of, or handed on where the first changes
// nothing. An `Err` says that memory ran out.
pub(crate) fn chain_on(delta: &Delta, later: Delta) -> Result<Delta, AllocError>
    ensures { IfOk result (λ whole. whole ≡ chained delta.now later) }
{
    if is_nothing(delta) {
        is_delta(&later);
        return Ok(later);
    }
    delta.chain(&later)
}

// The same of a delta that is let go of and a later one, which is not.
pub(crate) fn chain_with(delta: Delta, later: &Delta) -> Result<Delta, AllocError>
    ensures { IfOk result (λ whole. whole ≡ chained delta later.now) }
{
    if is_nothing(later) {
        return Ok(delta);
    }
    delta.chain(later)
}

/// The exact delta from the first node of a chain to each other one, by the exact steps from each node to
/// the next: so many steps are taken from the front of the row. An `Err` says that memory ran out.
pub(crate) fn ways(
    alloc: Global,
    count: usize,
    row: &mut VecDeque<Delta>,
) -> Result<Vec<Delta>, AllocError>
    requires some { 1 ≤ count }
    requires there { count ≤ length row.old.items }
    ensures ways { IfOk result (λ w. w.items ≡ ways_of (take count row.old.items)) }
    ensures rest { OnOk result (row.new.items ≡ drop count row.old.items) }
{
    let mut ways = Vec::with_capacity(alloc, count)?;
    ways.push(next_step(row))?;
    while ways.len() < count {
        let way = chain_on(&ways[ways.len() - 1], next_step(row))?;
        ways.push(way)?;
    }
    Ok(ways)
}

// Gives the segment the exact delta from an interior node to a child, by the one to the first child, and the way
// from that child. Answers it.
fn add_down(
    alloc: Global,
    to_first: &Delta,
    way: Delta,
    segment: &mut Segment,
) -> Result<Delta, BuildFault>
    ensures ok { IfOk result (λ down. segment.new ≡ record segment.old { deltas = segment.old.deltas ++ stored_delta (chained to_first.now way) ∷ [] }) }
    ensures down { IfOk result (λ down. down ≡ chained to_first.now way) }
    ensures narrow { IfOk result (λ down. is_wide (chained to_first.now way) ≡ false) }
    ensures fault { IfErr result (λ e. (more : List Delta) → IsFaultOfDeltas (length segment.old.deltas) (chained to_first.now way ∷ more) e) }
{
    let down = chain_on(to_first, way)?;
    add_delta(alloc, &down, segment)?;
    Ok(down)
}

// Gives the segment the exact deltas from an interior node to its children but the first, by the one to the
// first, and those from the first to the others. Answers the last of them.
fn add_others(
    alloc: Global,
    to_first: &Delta,
    ways: Vec<Delta>,
    segment: &mut Segment,
) -> Result<Delta, BuildFault>
    requires { 1 ≤ length ways.items }
    ensures ok { IfOk result (λ last. segment.new ≡ record segment.old { deltas = segment.old.deltas ++ map stored_delta (map (λ d. chained to_first.now d) ways.items) }) }
    ensures last { IfOk result (λ last. last ≡ last_way (map (λ d. chained to_first.now d) ways.items)) }
    ensures narrow { IfOk result (λ last. first_wide (length segment.old.deltas) (map (λ d. chained to_first.now d) ways.items) ≡ None) }
    ensures fault { IfErr result (λ e. IsFaultOfDeltas (length segment.old.deltas) (map (λ d. chained to_first.now d) ways.items) e) }
{
    let mut left = VecDeque::from_vec(ways);
    // Each is spelled as soon as it is made, and nothing is kept of it, nor of what it was made of.
    while left.len() > 1 {
        add_down(alloc, to_first, next_step(&mut left), segment)?;
    }
    add_down(alloc, to_first, next_step(&mut left), segment)
}

/// Gives the segment the exact deltas from an interior node to its children, by the one from the first child
/// to it, and those from the first to the others. Answers the one to the last child.
pub(crate) fn add_downs(
    alloc: Global,
    inner: Delta,
    ways: Vec<Delta>,
    segment: &mut Segment,
) -> Result<Delta, BuildFault>
    requires { 1 ≤ length ways.items }
    ensures ok { IfOk result (λ last. segment.new ≡ record segment.old { deltas = segment.old.deltas ++ map stored_delta (downs inner ways.items) }) }
    ensures last { IfOk result (λ last. last ≡ last_way (downs inner ways.items)) }
    ensures narrow { IfOk result (λ last. first_wide (length segment.old.deltas) (downs inner ways.items) ≡ None) }
    ensures fault { IfErr result (λ e. IsFaultOfDeltas (length segment.old.deltas) (downs inner ways.items) e) }
{
    let to_first = inner.reverse();
    add_delta(alloc, &to_first, segment)?;
    add_others(alloc, &to_first, ways, segment)
}
