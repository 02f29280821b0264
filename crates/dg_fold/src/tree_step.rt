//! The steps of a tree, each with its delta.

ghost use Rattle.std.specs.Prelude.{◌≡◌, drop, slice_get, if◌then◌else◌, IfOk, IfErr};
ghost use Rattle.dg_fold.specs.Parts.{Folds};
ghost use Rattle.dg_fold.specs.Steps.{names_record, part_deltas, paired, step_by};
ghost use Rattle.dg_fold.specs.TreeSteps.{AreStepped, FailsAt};

use crate::column::part_delta;
use crate::fault::FoldFault;
use crate::net::net_of;
use crate::part::Part;
use dg_delta::Delta;
use dg_graph::Event;
use dg_plan::{Edge, Via};
use std::alloc::Global;
use std::thread::Threads;

/// A step of a tree, with what it does.
#[derive(Drop)]
pub(crate) struct Stepped {
    pub edge: Edge,
    pub delta: Delta,
}

// The delta of the first of the parts, or the one that changes nothing.
fn first_delta<R: Threads>(
    rt: &R,
    alloc: Global,
    name_count: u32,
    parts: &[Part],
) -> Result<Delta, FoldFault>
    ensures { Folds result (part_deltas name_count (slice_get parts.now 0)) }
{
    match parts.first() {
        Some(part) => part_delta(rt, alloc, name_count, part),
        None => Ok(Delta::new(alloc)),
    }
}

// What an edge does; where it names a record, its part is the first.
fn step_delta<R: Threads>(
    rt: &R,
    alloc: Global,
    name_count: u32,
    via: Via,
    parts: &[Part],
    recent: &[Event],
) -> Result<Delta, FoldFault>
    ensures { Folds result (step_by name_count recent.now via (slice_get parts.now 0)) }
{
    match via {
        Via::Now | Via::Base(_) => Ok(Delta::new(alloc)),
        Via::Recent(way) => Ok(net_of(rt, alloc, recent, way, None)?),
        Via::Paid(_, _) | Via::Held(_, _) => first_delta(rt, alloc, name_count, parts),
    }
}

// The parts of the edges behind this one.
fn parts_behind(via: Via, parts: &[Part]) -> &[Part]
    ensures { result.now ≡ (if names_record via then drop 1 parts.now else parts.now) }
{
    match via {
        Via::Now | Via::Base(_) | Via::Recent(_) => parts,
        Via::Paid(_, _) | Via::Held(_, _) => match parts.split_first() {
            Some((_, more)) => more,
            None => parts,
        },
    }
}

/// The deltas of the edges, one after another; the parts are those of the edges that name a record.
pub(crate) fn steps_along<R: Threads>(
    rt: &R,
    alloc: Global,
    name_count: u32,
    edges: &[Edge],
    parts: &[Part],
    recent: &[Event],
) -> Result<Vec<Stepped>, FoldFault>
    ensures ok { IfOk result (λ v. AreStepped name_count recent.now (paired edges.now parts.now) v.items) }
    ensures err { IfErr result (λ f. FailsAt f name_count recent.now (paired edges.now parts.now)) }
{
    let mut steps = Vec::new(alloc);
    let mut rest = parts;
    for edge in edges {
        let delta = match step_delta(rt, alloc, name_count, edge.via, rest, recent) {
            Ok(delta) => delta,
            Err(fault) => return Err(fault),
        };
        rest = parts_behind(edge.via, rest);
        steps.push(Stepped { edge: *edge, delta })?;
    }
    Ok(steps)
}
