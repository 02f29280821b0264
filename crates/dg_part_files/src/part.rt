//! A part is written.

ghost use Rattle.std.specs.Prelude.{◌≡◌, ◌≤◌, ℕ, [], true, IfErr, IfOk, IfSome, IsErrOf, OnOk, length};
ghost use Rattle.std.specs.List.{All};
ghost use Rattle.dg_disk.specs.Calls.{Fails, IsOnDevice, UsesDisk, WritesDisk};
ghost use Rattle.dg_file.specs.Images.{BothTold};
ghost use Rattle.dg_graph.specs.declared.event.Event.{Event};
ghost use Rattle.dg_graph.specs.declared.limits.TheConstants.{TIME_MAX};
ghost use Rattle.dg_history.specs.declared.limits.TheConstants.{EVENTS_MAX, FILE_BYTES_MAX};
ghost use Rattle.dg_history.specs.History.{are_parameters, is_function};
ghost use Rattle.dg_history.specs.LegalHistory.{IsLegal};
ghost use Rattle.dg_index.specs.ImageOfHistory.{IsImageOf, is_blank};
ghost use Rattle.dg_part_files.specs.PartFaults.{IsUnmade, LeavesPart, StopsWriting};
ghost use Rattle.dg_part_files.specs.WrittenParts.{HasRoom, IsAt, IsGoodPart, written};
ghost use Rattle.dg_retrieval.specs.NamesThere.{EventNamesAreThere};
ghost use Rattle.dg_sound.specs.OwnEvents.{are_completions};

use crate::batches::{Part, write_batches};
use crate::fault::PartFault;
use crate::names::copy_names;
use dg_append::Live;
use dg_current::Now;
use dg_disk::Disk;
use dg_file::Index;
use dg_graph::Event;
use dg_history::{Form, Params};
use dg_names::Names;
use dg_seed::Seed;
use dg_stored::StoredHistory;
use std::alloc::Global;
use std::thread::Threads;

/// Writes the events as an index file of their own, on a disk that has no index. The index has these parameters and the
/// second form. The batches are cut greedily, and the first brings all names. A batch with which the file would need more
/// than `limit` bytes is not written. Once all is written, it is on the device.
///
/// `PartFault::Name` for the first text that may not be a name: nothing was written. `PartFault::Crowded` where more events
/// than a batch may have are of one time. `PartFault::Full` with the bytes that the file would need with the next batch,
/// where they are more than `limit`. `PartFault::Damaged` where what was written before is read back otherwise.
/// `PartFault::Disk` where the disk failed. `PartFault::Memory` for want of memory. After a fault the disk has no index, or
/// one with the batches before. Only where the disk failed while the index was made may it hold a part of one.
pub fn write_part<R: Threads, D: Disk>(
    rt: &R,
    alloc: Global,
    seed: Seed,
    limit: u64,
    params: Params,
    names: &Names,
    events: &[Event],
    out: &mut D,
) -> Result<(), PartFault>
    requires limit { limit ≤ FILE_BYTES_MAX }
    requires parameters { are_parameters params.l params.k ≡ true }
    requires function { is_function params.function ≡ true }
    requires blank { IfSome (D.image out.old) (λ image. is_blank image ≡ true) }
    requires follow { are_completions names.now [] 0 events.now ≡ true }
    requires named { EventNamesAreThere (length names.now) events.now }
    requires timed { All (λ (e : Event). e.time ≤ TIME_MAX) events.now }
    requires few { length events.now ≤ EVENTS_MAX }
    ensures written { OnOk result (IsLegal (written params names.now events.now) → IfSome (D.image out.new) (IsImageOf (written params names.now events.now))) }
    ensures room { OnOk result (IsLegal (written params names.now events.now) → IfSome (D.image out.new) (λ _. HasRoom limit (written params names.now events.now))) }

    // why it is not written, and what is left then
    ensures stops { IfErr result (StopsWriting limit (written params names.now events.now) names.now events.now (D.image out.new)) }
    ensures front { IfErr result (λ fault. IsLegal (written params names.now events.now)
        → BothTold (D.image out.old) (D.image out.new) (LeavesPart (written params names.now events.now) fault)) }
    ensures cause { IsErrOf result PartFault.Disk → Fails D.Disk out.old out.new }

    // what it leaves of the disk
    ensures used { UsesDisk D.Disk out.old out.new }
    ensures settled { OnOk result (IsOnDevice D.Disk out.new) }
{
    let copy = copy_names(alloc, seed, names)?;
    let part = Part {
        params,
        names,
        events,
    };
    let mut live = begin(alloc, seed, &part, copy, out)?;
    write_batches(rt, alloc, limit, &part, &mut live, out)
}

// Makes the index of the part. These names are kept with it, which its first batch will bring.
fn begin<D: Disk>(
    alloc: Global,
    seed: Seed,
    part: &Part,
    names: Names,
    out: &mut D,
) -> Result<Live, PartFault>
    requires good { IsGoodPart part.now.params part.now.names.now part.now.events.now }
    requires function { is_function part.now.params.function ≡ true }
    requires blank { IfSome (D.image out.old) (λ image. is_blank image ≡ true) }
    requires names { names ≡ part.now.names.now }
    ensures at { IfOk result (λ live. (limit : ℕ) → IsAt limit part.now.params part.now.names.now part.now.events.now 0 live (D.image out.new)) }

    // why it is not made
    ensures unmade { IfErr result (IsUnmade D.Disk (written part.now.params part.now.names.now part.now.events.now) out.old out.new) }

    // what it leaves of the disk
    ensures writes { WritesDisk D.Disk out.old out.new }
    ensures settled { OnOk result (IsOnDevice D.Disk out.new) }
{
    let index = Index::create(alloc, out, Form::Two, part.params)?;
    let history = StoredHistory {
        index: Some(index),
        names,
        now: Now::new(alloc, seed),
        recent: Vec::new(alloc),
    };
    Ok(Live {
        history,
        pool: None,
    })
}
