//! Messages behind what leads to graphs.
ghost use Rattle.std.specs.Prelude.{◌≡◌, ◌≤◌, ◌<◌, ◌==◌, ◌+◌, List, length, map, slice_index, IfOk, IfSome};
ghost use Rattle.std.specs.List.{sum};
ghost use Rattle.dg_file.specs.Images.{IsOpenedAs};
ghost use Rattle.dg_graph.specs.declared.element.Element.{Element};
ghost use Rattle.dg_heard.specs.Heard.{heard_bytes, with_heard_bytes};
ghost use Rattle.dg_history.specs.History.{History};
ghost use Rattle.dg_messages.specs.Calls.{HasMessages, HearsOver, TakesHeard, TellsMessageDamage};
ghost use Rattle.dg_messages.specs.Once.{each_once, sets_for};
ghost use Rattle.dg_messages.specs.Told.{TellBehind, telling};
ghost use Rattle.dg_planner.specs.Whole.{TREE_WEIGHT_MAX};
ghost use Rattle.dg_records.specs.Calls.{ReadsRecords};
ghost use Rattle.dg_retrieval.specs.Beginnings.{leads_in};
ghost use Rattle.dg_retrieval.specs.Retrieval.{IsOver};

use crate::told::{Heard, messages_once};
use dg_delta::Delta;
use dg_disk::Disk;
use dg_file::Index;
use dg_fold::Writing;
use dg_graph::Event;
use dg_heard::{heard_bytes, law_histories_are_heard};
use dg_records::RecordFault;
use dg_retrieval::{Leads, Retrieved};
use dg_set::Set;
use std::alloc::{AllocError, Global};

// For each of the times, whether it is this instant.
fn targets_at(alloc: Global, instant: u64, times: &[u64]) -> Result<Vec<bool>, AllocError>
    ensures { IfOk result (λ targets. targets.items ≡ map (λ t. instant == t) times.now) }
{
    let mut targets = Vec::with_capacity(alloc, times.len())?;
    for t in times {
        targets.push(instant == *t)?;
    }
    Ok(targets)
}

// The messages, to be put in wherever the time is the instant of this number.
fn told_at(
    alloc: Global,
    messages: Set,
    instants: &[u64],
    number: usize,
    times: &[u64],
) -> Result<Writing, AllocError>
    requires { number < length instants.now }
    ensures delta { IfOk result (λ w. w.delta ≡ telling messages) }
    ensures targets { IfOk result (λ w. w.targets.items ≡ map (λ t. slice_index instants.now number == t) times.now) }
{
    let targets = targets_at(alloc, instants[number], times)?;
    let delta = Delta::of(Set::new(alloc), messages);
    Ok(Writing { delta, targets })
}

// The leads, and behind each of them the messages of its time: those of an instant are written once, for all times that
// are this instant.
fn told_behind(
    alloc: Global,
    leads: Leads,
    heard: Heard,
    times: &[u64],
) -> Result<Leads, AllocError>
    requires times { length times.now ≡ length leads.begins.items }
    requires instants { heard.instants.items ≡ each_once times.now }
    requires sets { length heard.sets.items ≡ length heard.instants.items }
    ensures { IfOk result (λ told. TellBehind (leads_in leads) (leads_in told) (sets_for heard.instants.items heard.sets.items times.now)) }
{
    let Leads { begins, writings } = leads;
    let Heard { instants, sets } = heard;
    let mut writings = writings;
    let mut rest = sets;
    while let Some(set) = rest.pop() {
        let writing = told_at(alloc, set, &instants, rest.len(), times)?;
        writings.push(writing)?;
    }
    Ok(Leads { begins, writings })
}

// What single retrievals weigh, and what they weigh together.
#[derive(Drop)]
struct Weights {
    singles: Vec<u64>,
    sum: u64,
}

// The weights of single retrievals, to each of which comes what is heard of its instant.
fn heard_weights(
    alloc: Global,
    index: &Index,
    times: &[u64],
    singles: &[u64],
) -> Result<Weights, AllocError>
    requires few { length times.now ≤ 32 }
    requires count { length singles.now ≡ length times.now }
    requires light { sum singles.now ≤ TREE_WEIGHT_MAX }
    ensures singles { IfOk result (λ w. w.singles.items ≡ with_heard_bytes index.now.opening times.now singles.now) }
    ensures sum { IfOk result (λ w. w.sum ≡ sum w.singles.items) }
{
    let mut weights = Vec::with_capacity(alloc, singles.len())?;
    let mut sum = 0;
    for n in 0..times.len() {
        let weight = singles[n] + heard_bytes(index, &[times[n]]);
        weights.push(weight)?;
        sum += weight;
    }
    Ok(Weights {
        singles: weights,
        sum,
    })
}

// What was retrieved for the instants, with the messages of each behind it, and weighing what is heard of them as well.
fn with_messages(
    alloc: Global,
    index: &Index,
    times: &[u64],
    heard: Heard,
    retrieved: Retrieved,
) -> Result<Retrieved, AllocError>
    requires few { length times.now ≤ 32 }
    requires times { length times.now ≡ length retrieved.leads.begins.items }
    requires instants { heard.instants.items ≡ each_once times.now }
    requires sets { length heard.sets.items ≡ length heard.instants.items }
    requires singles { length retrieved.singles.items ≡ length times.now }
    requires light { retrieved.weight ≤ TREE_WEIGHT_MAX }
    requires light_sum { sum retrieved.singles.items ≤ TREE_WEIGHT_MAX }
    ensures behind { IfOk result (λ r. TellBehind (leads_in retrieved.leads) (leads_in r.leads) (sets_for heard.instants.items heard.sets.items times.now)) }
    ensures weight { IfOk result (λ r. r.weight ≡ retrieved.weight + heard_bytes index.now.opening times.now) }
    ensures singles { IfOk result (λ r. r.singles.items ≡ with_heard_bytes index.now.opening times.now retrieved.singles.items) }
    ensures sum { IfOk result (λ r. r.sum ≡ sum r.singles.items) }
{
    let Retrieved {
        leads,
        weight,
        singles,
        ..
    } = retrieved;
    let leads = told_behind(alloc, leads, heard, times)?;
    let Weights { singles, sum } = heard_weights(alloc, index, times, &singles)?;
    Ok(Retrieved {
        leads,
        weight: weight + heard_bytes(index, times),
        singles,
        sum,
    })
}

/// Puts the messages of exactly its instant behind each lead, and adds to each weight what is read for them. The messages
/// are read from the lists; the recent events are in memory. The history has `name_count` names.
///
/// `Disk` where a read failed, `Damaged` with the first list whose column of messages is in no spelling, and `Memory`.
pub fn hear<D: Disk>(
    alloc: Global,
    index: &Index,
    disk: &mut D,
    name_count: u32,
    recent: &[Event],
    times: &[u64],
    retrieved: Retrieved,
) -> Result<Retrieved, RecordFault>
    requires image { IfSome (D.image disk.old) (λ image. IsOpenedAs image index.now.opening) }
    requires few { length times.now ≤ 32 }
    requires count { length (leads_in retrieved.leads) ≡ length times.now }
    requires singles { length retrieved.singles.items ≡ length times.now }
    requires sum { retrieved.sum ≡ sum retrieved.singles.items }
    requires light { retrieved.weight ≤ TREE_WEIGHT_MAX }
    requires light_sum { retrieved.sum ≤ TREE_WEIGHT_MAX }

    // what it gives, of which the second holds over an image of a history
    ensures done { IfOk result (HasMessages name_count index.now.opening (D.image disk.old) recent.now times.now retrieved) }
    ensures over { IfSome (D.image disk.old) (λ image. (z : History) (now : List Element) → IsOver z image index.now.opening name_count now recent.now → HearsOver z times.now retrieved result) }

    // what it reads, and where a column is damaged
    ensures takes { IfSome (D.image disk.old) (λ image. TakesHeard index.now.opening times.now (D.taken disk.old) (D.taken disk.new) result) }
    ensures damage { IfSome (D.image disk.old) (λ image. TellsMessageDamage name_count index.now.opening times.now image result) }

    // what it leaves, and why a read failed
    ensures reads { ReadsRecords D.Disk disk.old disk.new result }
{
    law_histories_are_heard();
    let heard = messages_once(alloc, index, disk, name_count, recent, times)?;
    let told = with_messages(alloc, index, times, heard, retrieved)?;
    Ok(told)
}
