//! The steps of a tree in which the paths to some nodes differ, each decoded both ways.

ghost use Rattle.std.specs.Prelude.{◌≡◌, ◌<◌, [], ◌++◌, ℕ, Bool, List, Ok, Some, drop, length, reverse, slice_get, IfOk, IfErr, IsTrue, OnOk, if◌then◌else◌};
ghost use Rattle.std.specs.Global.{Vec};
ghost use Rattle.std.specs.List.{All};
ghost use Rattle.std.specs.Option.{option_to_list};
ghost use Rattle.dg_fold.specs.Ends.{FailsIn};
ghost use Rattle.dg_fold.specs.Steps.{names_record, paired, part_deltas, steps_in};
ghost use Rattle.dg_graph.specs.Composition.{Delta};
ghost use Rattle.dg_steps.specs.TreeSteps.{turned_way};
ghost use Rattle.dg_steps.specs.TreeStepWalks.{AllAgree, AreKept, IsCrossing, part_of};

use dg_delta::Delta;
use dg_fold::{FoldFault, Part, is_sound_part, part_delta_as};
use dg_plan::{Edge, Via, Way};
use std::alloc::{AllocError, Global};
use std::thread::Threads;

/// A step in which paths differ.
#[derive(Drop)]
pub(crate) struct Crossing {
    /// What it does.
    pub on: Delta,
    /// What it does the other way.
    pub back: Delta,
    /// For each node whether the path to it takes the step.
    pub takes: Vec<bool>,
}

// The way turned.
fn turned(way: Way) -> Way
    ensures { result ≡ turned_way way }
{
    match way {
        Way::Same => Way::Same,
        Way::Forward => Way::Back,
        Way::Back => Way::Forward,
    }
}

// Whether the edge names a record.
fn is_record(via: Via) -> bool
    ensures { result ≡ names_record via }
{
    match via {
        Via::Now | Via::Base(_) | Via::Recent(_) => false,
        Via::Paid(_, _) | Via::Held(_, _) => true,
    }
}

// Whether all of the paths take the edge, or none does.
fn all_agree(takes: &[bool]) -> bool
    ensures { IsTrue result → AllAgree takes.now }
{
    takes.iter().all(|take| *take) || takes.iter().all(|take| !*take)
}

// What is kept of the step of a part. Where all paths agree it is only tested for damage, and is decoded where it fails
// the test, so that the damage is named. It is decoded the other way only where paths differ in it.
fn crossing_of<R: Threads>(
    rt: &R,
    alloc: Global,
    name_count: u32,
    part: &Part,
    takes: Vec<bool>,
) -> Result<Option<Crossing>, FoldFault>
    ensures ok { IfOk result (λ c. IsCrossing name_count (Some part.now) takes.items c) }
    ensures err { IfErr result (λ f. FailsIn f (part_deltas name_count (Some part.now))) }
{
    let agreed = all_agree(&takes);
    if agreed && is_sound_part(alloc, name_count, part) {
        return Ok(None);
    }
    let on = match part_delta_as(rt, alloc, name_count, part, part.way, part.until) {
        Ok(on) => on,
        Err(fault) => return Err(fault),
    };
    if agreed {
        return Ok(None);
    }
    let way = turned(part.way);
    let back = match part_delta_as(rt, alloc, name_count, part, way, part.until) {
        Ok(back) => back,
        Err(fault) => return Err(fault),
    };
    Ok(Some(Crossing { on, back, takes }))
}

// What is kept of the step of an edge; where it names a record, its part is the first.
fn crossing_by<R: Threads>(
    rt: &R,
    alloc: Global,
    name_count: u32,
    via: Via,
    parts: &[Part],
    takes: Vec<bool>,
) -> Result<Option<Crossing>, FoldFault>
    ensures ok { IfOk result (λ c. IsCrossing name_count (part_of via parts.now) takes.items c) }
    ensures err { IfErr result (λ f. FailsIn f (part_deltas name_count (part_of via parts.now))) }
{
    if !is_record(via) {
        return Ok(None);
    }
    match parts.first() {
        Some(part) => crossing_of(rt, alloc, name_count, part, takes),
        None => Ok(None),
    }
}

// The parts of the edges behind this one.
fn parts_behind(via: Via, parts: &[Part]) -> &[Part]
    ensures { result.now ≡ (if names_record via then drop 1 parts.now else parts.now) }
{
    if !is_record(via) {
        return parts;
    }
    match parts.split_first() {
        Some((_, more)) => more,
        None => parts,
    }
}

// Keeps the step, where there is one.
fn keep(kept: &mut Vec<Crossing>, crossing: Option<Crossing>) -> Result<(), AllocError>
    ensures { IfOk result (λ _. kept.new.items ≡ kept.old.items ++ option_to_list crossing) }
{
    if let Some(crossing) = crossing {
        kept.push(crossing)?;
    }
    Ok(())
}

/// The steps of the edges in which paths differ, in order. The parts are those of the edges that name a record; each is
/// decoded or tested, in order, so that the first damage is found. Which paths take each edge is said of the last edge
/// first.
pub(crate) fn crossings_of<R: Threads>(
    rt: &R,
    alloc: Global,
    name_count: u32,
    edges: &[Edge],
    parts: &[Part],
    paths: Vec<Vec<bool>>,
) -> Result<Vec<Crossing>, FoldFault>
    requires { length paths.items ≡ length edges.now }
    ensures kept { IfOk result (λ v. (n m : ℕ) → All (λ (f : Vec Bool). (n < length f.items) × (m < length f.items)) paths.items
        → AreKept name_count n m (paired edges.now parts.now) (reverse paths.items) v.items) }
    ensures read { OnOk result ((list : List Delta) × (steps_in name_count [] (paired edges.now parts.now) ≡ Ok list)) }
    ensures err { IfErr result (λ f. FailsIn f (steps_in name_count [] (paired edges.now parts.now))) }
{
    let mut kept = Vec::new(alloc);
    let mut rest = parts;
    let mut left = paths;
    let mut done = 0;
    while let Some(takes) = left.pop() {
        let via = edges[done].via;
        let crossing = match crossing_by(rt, alloc, name_count, via, rest, takes) {
            Ok(crossing) => crossing,
            Err(fault) => return Err(fault),
        };
        keep(&mut kept, crossing)?;
        rest = parts_behind(via, rest);
        done += 1;
    }
    Ok(kept)
}
