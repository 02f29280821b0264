//! A history is split.
ghost use Rattle.std.specs.Prelude.{◌≡◌, ◌≤◌, Err, IfErr, IfOk, IfSome, None, OnOk, Option, Some, length, true};
ghost use Rattle.dg_columns.specs.ColumnLaws.{AreBytes};
ghost use Rattle.dg_disk.specs.Calls.{ReadsDisk, SyncsDisk};
ghost use Rattle.dg_history.specs.History.{History, are_parameters, is_function};
ghost use Rattle.dg_index.specs.ImageOfHistory.{StandsAs};
ghost use Rattle.dg_index.specs.OpenedIndex.{Opening};
ghost use Rattle.dg_machine.specs.MachineState.{IsWithin, machine_at};
ghost use Rattle.dg_session.specs.Session.{HoldsImage, StandsFor};
ghost use Rattle.dg_session.specs.SessionStart.{IsStanding};
ghost use Rattle.dg_splitting.specs.Ends.{LacksParams};
ghost use Rattle.dg_splitting.specs.Outs.{AreUsed};
ghost use Rattle.dg_splitting.specs.Splits.{Splits};

use crate::events::read_events;
use crate::outs::ask_all;
use crate::parts::{PARTS_MAX, Whole, write_parts};
use crate::status::SplitStatus;
use dg_disk::Disk;
use dg_history::{Params, are_parameters, is_function};
use dg_machine::Limits;
use dg_partition::law_parts_are_legal;
use dg_seed::Seed;
use dg_session::{Session, SessionFault, StartFault};
use std::alloc::Global;
use std::thread::Threads;

// The parameters of the session's index. Those of a history are in their ranges.
fn index_params(session: &Session) -> Result<Params, SplitStatus>
    ensures params { IfOk result (λ params. (o : Opening) × (session.now.parts.index ≡ Some o) × (params ≡ o.params)) }
    ensures ranges { IfOk result (λ params. (are_parameters params.l params.k ≡ true) × (is_function params.function ≡ true)) }
    ensures lacks { IfErr result (LacksParams session.now.parts.index) }
{
    match session.params() {
        None => Err(SplitStatus::NoIndex),
        Some(params) if are_parameters(params) && is_function(params.function) => Ok(params),
        Some(_) => Err(SplitStatus::Refused(SessionFault::Start(StartFault::Foreign))),
    }
}

// Splits the history of a checked session, as `split` says.
fn split_session<R: Threads, D: Disk>(
    rt: &R,
    alloc: Global,
    seed: Seed,
    session: &Session,
    disk: &mut D,
    outs: &mut [D],
    limits: Limits,
) -> Result<(), SplitStatus>
    requires limits { IsWithin limits }
    requires few { length outs.old ≤ PARTS_MAX }
    requires held { HoldsImage session.now.parts (D.image disk.old) }
    requires stands { IfSome (D.image disk.old) (λ image. (index : Option History) → StandsAs index image → StandsFor session.now.parts image (machine_at limits index)) }
    requires checked { IfSome (D.image disk.old) (λ image. AreBytes image → IsStanding image) }
    ensures done { OnOk result (Splits D.Disk limits.file_bytes SplitStatus.Done disk.old disk.new outs.old outs.new) }
    ensures ended { IfErr result (λ status. Splits D.Disk limits.file_bytes status disk.old disk.new outs.old outs.new) }
    ensures disk { ReadsDisk D.Disk disk.old disk.new }
    ensures outs { AreUsed D.Disk outs.old outs.new }
{
    law_parts_are_legal();
    let params = index_params(session)?;
    ask_all(alloc, seed, outs)?;
    let events = read_events(session, disk)?;
    let whole = Whole {
        params,
        names: session.names(),
        events: &events,
    };
    write_parts(rt, alloc, seed, limits.file_bytes, &whole, outs)
}

// Splits the history, as `split` says.
fn split_index<R: Threads + Sync, D: Disk>(
    rt: &R,
    alloc: Global,
    seed: Seed,
    disk: &mut D,
    outs: &mut [D],
    limits: Limits,
) -> Result<(), SplitStatus>
    requires limits { IsWithin limits }
    requires few { length outs.old ≤ PARTS_MAX }
    ensures done { OnOk result (Splits D.Disk limits.file_bytes SplitStatus.Done disk.old disk.new outs.old outs.new) }
    ensures ended { IfErr result (λ status. Splits D.Disk limits.file_bytes status disk.old disk.new outs.old outs.new) }
    ensures disk { SyncsDisk D.Disk disk.old disk.new }
    ensures outs { AreUsed D.Disk outs.old outs.new }
{
    let session = Session::start(rt, alloc, seed, disk, true, limits)?;
    split_session(rt, alloc, seed, &session, disk, outs, limits)
}

/// Splits the history of an index into as many parts as there are outs, and writes each to the out of its number, as an
/// index file of its own: with the history's parameters and all its names, in the second form, and with the events that
/// belong to the part. What adds or removes a node belongs to every part, and everything else to one, by an id.
///
/// The index is checked as a whole, and all outs are asked, before the first is written. All events are in memory at once.
/// Each status says why it ended so, and what is left of the outs.
pub fn split<R: Threads + Sync, D: Disk>(
    rt: &R,
    alloc: Global,
    seed: Seed,
    disk: &mut D,
    outs: &mut [D],
    limits: Limits,
) -> SplitStatus
    requires limits { IsWithin limits }
    requires some { 1 ≤ length outs.old }
    requires few { length outs.old ≤ PARTS_MAX }
    ensures split { Splits D.Disk limits.file_bytes result disk.old disk.new outs.old outs.new }
    ensures disk { SyncsDisk D.Disk disk.old disk.new }
    ensures outs { AreUsed D.Disk outs.old outs.new }
{
    match split_index(rt, alloc, seed, disk, outs, limits) {
        Ok(()) => SplitStatus::Done,
        Err(status) => status,
    }
}
