//! Verifying an index file.

ghost use Rattle.std.specs.Prelude.{◌≡◌, ◌≤◌, ◌++◌, [], IfErr, IfOk, IfSome, IsErrOf, List, None, Ok, OnOk, Result, length, map, true};
ghost use Rattle.std.specs.List.{All};
ghost use Rattle.dg_columns.specs.NamesInRange.{NamesFit};
ghost use Rattle.dg_disk.specs.Calls.{Fails, ReadsDisk};
ghost use Rattle.dg_build.specs.declared.fault.BuildFault.TheVariants.{Memory};
ghost use Rattle.dg_graph.specs.declared.element.Column.{Column};
ghost use Rattle.dg_graph.specs.declared.event.Event.{Event};
ghost use Rattle.dg_graph.specs.declared.limits.TheConstants.{TIME_MAX};
ghost use Rattle.dg_history.specs.declared.node.Key.{Key};
ghost use Rattle.dg_history.specs.declared.limits.TheConstants.{EVENTS_MAX};
ghost use Rattle.dg_history.specs.History.{are_parameters};
ghost use Rattle.dg_index.specs.FileOfHistory.{stored};
ghost use Rattle.dg_index.specs.Hierarchy.{leaves};
ghost use Rattle.dg_index.specs.IndexRecords.{deltas_due, lists_due, record_among};
ghost use Rattle.dg_index.specs.OpenedIndex.{event_total, opening};
ghost use Rattle.dg_records.specs.Calls.{ReadsRecords};
ghost use Rattle.dg_records.specs.ColumnReads.{TakesAtMost};
ghost use Rattle.dg_records.specs.EventNames.{EventNamesAreThere};
ghost use Rattle.dg_sound.specs.OwnEvents.{are_completions, own_events};
ghost use Rattle.dg_sound.specs.Soundness.{soundness_of};
ghost use Rattle.dg_sound.specs.declared.soundness.Soundness.TheVariants.{Sound};
ghost use Rattle.dg_start.specs.EventSources.{WhereTold};
ghost use Rattle.dg_verify.specs.Deltas.{AreMadeOf};
ghost use Rattle.dg_verify.specs.EventTests.{IsRead, IsStopBehind, IsUnfit, first_unfit, tested};
ghost use Rattle.dg_verify.specs.Faults.{IsFirstWrong};
ghost use Rattle.dg_verify.specs.RecordBytes.{columns_bytes, piece_keys, records_bytes};
ghost use Rattle.dg_verify.specs.Verification.{IsStop, IsUnsound, opened_with};

use crate::deltas::{DeltaKind, compare_deltas};
use crate::due_deltas::{DueDeltas, due_deltas};
use crate::fault::VerifyFault;
use crate::lists::add_lists;
use crate::own_events::OwnEvents;
use crate::pieces::add_pieces;
use crate::stop::Stop;
use dg_build::BuildFault;
use dg_catalogue::leaves;
use dg_disk::Disk;
use dg_file::Index;
use dg_graph::{Column, Event};
use dg_history::{Key, Params};
use dg_names::Names;
use dg_net::law_changes_of_a_graph_are_exact;
use dg_records::RecordFault;
use dg_sound::Soundness;
use std::alloc::{AllocError, Global};
use std::thread::{Threads, join};

// Reads the events of all lists and recent pieces, up to the first that is not right by itself.
fn read_all<D: Disk>(
    alloc: Global,
    index: &Index,
    disk: &mut D,
    names: &Names,
    own: &mut OwnEvents,
) -> Result<(), Stop>
    requires none { own.old.events.items ≡ [] }
    requires image { IfSome (D.image disk.old) (λ image. opening image ≡ Ok (opened_with index.now.opening names.now)) }
    requires read { IsRead (length names.now) own.old }

    // the events
    ensures own { OnOk result (WhereTold (D.image disk.old)
        (λ image. own_events image (opened_with index.now.opening names.now) ≡ tested names.now own.new (Ok own.new.events.items))) }
    ensures read { OnOk result (IsRead (length names.now) own.new) }
    ensures many { OnOk result (length own.new.events.items ≡ event_total index.now.opening.batches) }

    // why there are none
    ensures stopped { IfErr result (λ stop. WhereTold (D.image disk.old)
        (λ image. IsStopBehind names.now own.new stop (own_events image (opened_with index.now.opening names.now)))) }
    ensures cause { IsErrOf result Stop.Disk → Fails D.Disk disk.old disk.new }

    // what it reads, and what it leaves
    ensures takes { WhereTold (D.image disk.old) (λ image. TakesAtMost (columns_bytes index.now.opening (lists_due index.now.opening.params 0 (event_total index.now.opening.batches) ++ piece_keys index.now.opening)) (D.taken disk.old) (D.taken disk.new)) }
    ensures disk { ReadsDisk D.Disk disk.old disk.new }
{
    add_lists(alloc, index, disk, names, own)?;
    add_pieces(alloc, index, disk, names, own)
}

// Why verifying stops behind these events: for an event that may not stand there, or else for this.
fn first_stop(alloc: Global, names: &Names, own: &OwnEvents, stop: Stop) -> Result<Stop, AllocError>
    ensures first { IfOk result (λ first. (due : Result (List Event) (Key × Column)) → IsStopBehind names.now own.now stop due → IsStop first due) }
    ensures disk { IfOk result (λ first. first ≡ Stop.Disk → stop ≡ Stop.Disk) }
{
    let Stop::Wrong(_, _) = stop else {
        return Ok(stop);
    };
    match own.first_unfit(alloc, names)? {
        Some(key) => Ok(Stop::Wrong(key, Column::Structure)),
        None => Ok(stop),
    }
}

// Reads all events, each of which may stand behind those before it.
fn read_fit<D: Disk>(
    alloc: Global,
    index: &Index,
    disk: &mut D,
    names: &Names,
) -> Result<Vec<Event>, Stop>
    requires image { IfSome (D.image disk.old) (λ image. opening image ≡ Ok (opened_with index.now.opening names.now)) }

    // the events
    ensures own { IfOk result (λ events. WhereTold (D.image disk.old)
        (λ image. own_events image (opened_with index.now.opening names.now) ≡ Ok events.items)) }
    ensures follow { IfOk result (λ events. are_completions names.now [] 0 events.items ≡ true) }
    ensures named { IfOk result (λ events. EventNamesAreThere (length names.now) events.items) }
    ensures timed { IfOk result (λ events. All (λ (e : Event). e.time ≤ TIME_MAX) events.items) }
    ensures many { IfOk result (λ events. length events.items ≡ event_total index.now.opening.batches) }

    // why there are none
    ensures stopped { IfErr result (λ stop. WhereTold (D.image disk.old)
        (λ image. IsStop stop (own_events image (opened_with index.now.opening names.now)))) }
    ensures cause { IsErrOf result Stop.Disk → Fails D.Disk disk.old disk.new }

    // what it reads, and what it leaves
    ensures takes { WhereTold (D.image disk.old) (λ image. TakesAtMost (columns_bytes index.now.opening (lists_due index.now.opening.params 0 (event_total index.now.opening.batches) ++ piece_keys index.now.opening)) (D.taken disk.old) (D.taken disk.new)) }
    ensures disk { ReadsDisk D.Disk disk.old disk.new }
{
    let mut own = OwnEvents::new(alloc);
    if let Err(stop) = read_all(alloc, index, disk, names, &mut own) {
        return Err(first_stop(alloc, names, &own, stop)?);
    }
    match own.first_unfit(alloc, names)? {
        Some(key) => Err(Stop::Wrong(key, Column::Structure)),
        None => Ok(own.events),
    }
}

/// The events that the file holds of its own: those of its lists, and behind them those of its recent pieces. Each is what
/// some change comes to after those before it, and none is earlier. No top and no down is read.
///
/// `RecordFault::Damaged` for the first record of events that is not right, by what `verify` asks of it, and its first such
/// column; `RecordFault::Disk` where the disk failed, `RecordFault::Memory` for want of memory.
pub fn read_own_events<D: Disk>(
    alloc: Global,
    index: &Index,
    disk: &mut D,
    names: &Names,
) -> Result<Vec<Event>, RecordFault>
    requires image { IfSome (D.image disk.old) (λ image. opening image ≡ Ok (opened_with index.now.opening names.now)) }

    // the events
    ensures own { IfOk result (λ events. WhereTold (D.image disk.old)
        (λ image. own_events image (opened_with index.now.opening names.now) ≡ Ok events.items)) }
    ensures follow { IfOk result (λ events. are_completions names.now [] 0 events.items ≡ true) }
    ensures named { IfOk result (λ events. EventNamesAreThere (length names.now) events.items) }
    ensures timed { IfOk result (λ events. All (λ (e : Event). e.time ≤ TIME_MAX) events.items) }
    ensures many { IfOk result (λ events. length events.items ≡ event_total index.now.opening.batches) }

    // why there are none
    ensures damage { IfErr result (λ fault. WhereTold (D.image disk.old)
        (λ image. IsFirstWrong fault (own_events image (opened_with index.now.opening names.now)))) }

    // what it reads, and what it leaves
    ensures takes { WhereTold (D.image disk.old) (λ image. TakesAtMost (columns_bytes index.now.opening (lists_due index.now.opening.params 0 (event_total index.now.opening.batches) ++ piece_keys index.now.opening)) (D.taken disk.old) (D.taken disk.new)) }
    ensures reads { ReadsRecords D.Disk disk.old disk.new result }
{
    match read_fit(alloc, index, disk, names) {
        Ok(events) => Ok(events),
        Err(Stop::Wrong(key, col)) => Err(RecordFault::Damaged(key, col)),
        Err(Stop::Disk) => Err(RecordFault::Disk),
        Err(Stop::Memory) => Err(RecordFault::Memory),
    }
}

// The tops and downs of events, each of which may stand behind those before it, where that was found meanwhile.
fn made_of(unfit: Option<Key>, due: Result<DueDeltas, BuildFault>) -> Result<DueDeltas, Stop>
    requires memory { unfit ≡ None → IfErr due (λ fault. fault ≡ Memory) }
    ensures made { IfOk result (λ made. due ≡ Ok made) }
    ensures fit { OnOk result (unfit ≡ None) }
    ensures stopped { IfErr result (λ stop. IsUnfit stop unfit) }
    ensures disk { ¬ IsErrOf result Stop.Disk }
{
    if let Some(key) = unfit {
        return Err(Stop::Wrong(key, Column::Structure));
    }
    match due {
        Ok(made) => Ok(made),
        Err(BuildFault::Memory) => Err(Stop::Memory),
        // Such events lead to no delta that is too wide.
        Err(BuildFault::Wide(_)) => unreachable!(),
    }
}

// Tests the events, and makes the tops and downs that they determine, both at once.
fn test_and_make<R: Threads>(
    rt: &R,
    alloc: Global,
    params: Params,
    names: &Names,
    own: OwnEvents,
) -> Result<DueDeltas, Stop>
    requires parameters { are_parameters params.l params.k ≡ true }
    requires few { length own.events.items ≤ EVENTS_MAX }
    requires read { IsRead (length names.now) own }
    ensures keys { IfOk result (λ due. due.keys.items ≡ deltas_due params.k 0 (leaves params (length own.events.items))) }
    ensures deltas { IfOk result (λ due. due.segment.deltas ≡ map (λ k. stored (record_among params own.events.items [] k)) due.keys.items) }
    ensures fit { OnOk result (first_unfit names.now own ≡ None) }
    ensures stopped { IfErr result (λ stop. IsUnfit stop (first_unfit names.now own)) }
    ensures disk { ¬ IsErrOf result Stop.Disk }
{
    law_changes_of_a_graph_are_exact();
    let events = own.events.as_slice();
    let own = &own;
    let (unfit, due) = join(
        rt,
        || -> Result<Option<Key>, AllocError>
            ensures { IfOk result (λ key. key ≡ first_unfit names.entry.now own.entry.now) }
        { own.first_unfit(alloc, names) },
        || -> Result<DueDeltas, BuildFault>
            requires { (are_parameters params.l params.k ≡ true) × (length events.now ≤ EVENTS_MAX) × All (λ (e : Event). NamesFit e.body) events.now }
            ensures { AreMadeOf params events.entry.now result }
        { due_deltas(alloc, params, events) },
    );
    made_of(unfit?, due)
}

// Verifies the file up to the first record that is not right. Answers how many lists, tops and downs it has.
fn compare_all<R: Threads, D: Disk>(
    rt: &R,
    alloc: Global,
    index: &Index,
    disk: &mut D,
    names: &Names,
) -> Result<u64, Stop>
    requires image { IfSome (D.image disk.old) (λ image. opening image ≡ Ok (opened_with index.now.opening names.now)) }
    ensures sound { IfOk result (λ total. WhereTold (D.image disk.old)
        (λ image. soundness_of image (opened_with index.now.opening names.now) ≡ Sound total)) }
    ensures stopped { IfErr result (λ stop. WhereTold (D.image disk.old)
        (λ image. IsUnsound stop (soundness_of image (opened_with index.now.opening names.now)))) }
    ensures cause { IsErrOf result Stop.Disk → Fails D.Disk disk.old disk.new }

    // what it reads, and what it leaves
    ensures takes { WhereTold (D.image disk.old) (λ image. TakesAtMost (records_bytes index.now.opening) (D.taken disk.old) (D.taken disk.new)) }
    ensures disk { ReadsDisk D.Disk disk.old disk.new }
{
    index.facts();
    let mut own = OwnEvents::new(alloc);
    if let Err(stop) = read_all(alloc, index, disk, names, &mut own) {
        return Err(first_stop(alloc, names, &own, stop)?);
    }
    let due = test_and_make(rt, alloc, index.params(), names, own)?;
    compare_deltas(index, disk, &due, DeltaKind::Top)?;
    compare_deltas(index, disk, &due, DeltaKind::Down)?;
    let lists = u64::from(leaves(index.params(), index.events_len()));
    Ok(lists + due.keys.len() as u64)
}

/// Whether the file of the index is exactly what its own events determine, and the first record, in the order of keys,
/// that is not.
///
/// The events are read from the lists and the recent pieces first, and each older piece is compared with its own. Then
/// two halves of the keys are worked on at once, in two threads: whether each event may stand behind those before it,
/// which is what is asked of the lists and recent pieces beside their spelling, and the tops and downs, which are made
/// anew of the events. Wherever the keys are cut, the least key that is not right is named. At last each top and each
/// down is compared.
///
/// That costs what making the file costs, and each record is read once at most. All events and the columns of all records are
/// in memory at once.
///
/// `VerifyFault::Disk` where the disk failed, `VerifyFault::Memory` for want of memory.
pub fn verify<R: Threads, D: Disk>(
    rt: &R,
    alloc: Global,
    index: &Index,
    disk: &mut D,
    names: &Names,
) -> Result<Soundness, VerifyFault>
    requires image { IfSome (D.image disk.old) (λ image. opening image ≡ Ok (record { index = index.now.opening; names = names.now })) }
    ensures sound { IfOk result (λ s. IfSome (D.image disk.old) (λ image. s ≡ soundness_of image (record { index = index.now.opening; names = names.now }))) }
    ensures cause { IsErrOf result VerifyFault.Disk → Fails D.Disk disk.old disk.new }

    // what it reads, and what it leaves
    ensures takes { IfSome (D.image disk.old) (λ image. TakesAtMost (records_bytes index.now.opening) (D.taken disk.old) (D.taken disk.new)) }
    ensures disk { ReadsDisk D.Disk disk.old disk.new }
{
    match compare_all(rt, alloc, index, disk, names) {
        Ok(total) => Ok(Soundness::Sound(total)),
        Err(Stop::Wrong(key, col)) => Ok(Soundness::Unsound(key, col)),
        Err(Stop::Disk) => Err(VerifyFault::Disk),
        Err(Stop::Memory) => Err(VerifyFault::Memory),
    }
}
