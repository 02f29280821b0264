//! The graph behind the last closed list of an index, by the records along its plan.

ghost use Rattle.std.specs.Prelude.{◌≡◌, ◌≤◌, ◌+◌, ◌*◌, Ok, IfOk, IfErr, IfSome, IsErrOf};
ghost use Rattle.dg_disk.specs.Calls.{Fails, ReadsDisk};
ghost use Rattle.dg_file.specs.Images.{IsOpenedAs};
ghost use Rattle.dg_history.specs.declared.limits.TheConstants.{EVENTS_MAX};
ghost use Rattle.dg_retrieval.specs.NamesThere.{NamesAreThere};
ghost use Rattle.dg_retrieval.specs.NodeSets.{IsLedByPlan};
ghost use Rattle.dg_start.specs.Calls.{TakesAlongPlan, plan_bytes};
ghost use Rattle.dg_start.specs.Refusals.{RefusesPlan};
ghost use Rattle.dg_start.specs.SessionStart.{first_recent, last_leaf, lists_in};

use crate::fault::StartFault;
use dg_disk::Disk;
use dg_file::Index;
use dg_history::NodeId;
use dg_retrieval::{ALL_COLUMNS, PlannedIndex, plan_set, record_planner};
use dg_set::Set;
use std::alloc::Global;
use std::thread::Threads;

// The number of closed lists.
fn lists_in(index: &Index) -> u32
    ensures lists { result ≡ lists_in index.now.opening }
    ensures few { result * index.now.opening.params.l ≤ EVENTS_MAX }
{
    index.facts();
    (index.events_len() / u64::from(index.params().l)) as u32
}

/// The number of the first event behind the last closed list, from 1 in the whole history.
pub fn first_recent(index: &Index) -> u64
    ensures number { result ≡ first_recent index.now.opening }
    ensures few { result ≤ EVENTS_MAX + 1 }
{
    u64::from(lists_in(index)) * u64::from(index.params().l) + 1
}

// The node of the graph behind the last closed list.
fn last_leaf(index: &Index) -> NodeId
    ensures { result ≡ last_leaf index.now.opening }
{
    match lists_in(index) {
        0 => NodeId::Root,
        lists => NodeId::Leaf(lists),
    }
}

/// The graph behind the last closed list, by the records along its plan. The names of the history are so many.
///
/// `StartFault::BadRecord` for the first column that is in no spelling; `StartFault::Disk` where the disk failed,
/// `StartFault::Memory` for want of memory.
pub fn last_set<R: Threads + Sync, D: Disk>(
    rt: &R,
    alloc: Global,
    index: &Index,
    disk: &mut D,
    names: u32,
) -> Result<Set, StartFault>
    requires image { IfSome (D.image disk.old) (λ image. IsOpenedAs image index.now.opening) }

    // the set
    ensures led { IfOk result (λ set. IfSome (D.image disk.old) (λ image.
        IsLedByPlan names image index.now.opening (last_leaf index.now.opening) (Ok set))) }
    ensures named { IfOk result (NamesAreThere names) }

    // the bytes read, over an image of a history
    ensures takes { IfSome (D.image disk.old) (λ image.
        TakesAlongPlan result (plan_bytes index.now.opening) image index.now.opening names (D.taken disk.old) (D.taken disk.new)) }

    // why there is none
    ensures refused { IfErr result (λ fault. IfSome (D.image disk.old) (λ image. RefusesPlan names image index.now.opening fault)) }
    ensures cause { IsErrOf result StartFault.Disk → Fails D.Disk disk.old disk.new }

    // what it leaves
    ensures disk { ReadsDisk D.Disk disk.old disk.new }
{
    let planner = record_planner(alloc, index, ALL_COLUMNS)?;
    let records = PlannedIndex {
        alloc,
        index,
        name_count: names,
        recent: &[],
        planner: &planner,
        cols: ALL_COLUMNS,
    };
    let leaf = last_leaf(index);
    let set = plan_set(rt, &records, disk, leaf)?;
    Ok(set)
}
