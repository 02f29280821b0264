//! How a run over parts begins, or why it does not.
ghost use Rattle.std.specs.Prelude.{◌≡◌, ◌↔◌, ◌≤◌, IfErr, IfNone, IfOk, IfSome, IsErrOf, IsTrue, length};
ghost use Rattle.dg_machine.specs.MachineState.{IsWithin};
ghost use Rattle.dg_part_runs.specs.declared.start.TheConstants.{PARTS_MAX};
ghost use Rattle.dg_part_runs.specs.Disks.{SomeRose, SyncsAll, faults_of, images_of};
ghost use Rattle.dg_part_runs.specs.HeldParts.{names_kept};
ghost use Rattle.dg_part_runs.specs.PartStarts.{Each, IsFirstTo};
ghost use Rattle.dg_part_runs.specs.StartedParts.{AgreesKept, AreBegun, AreNotBegun, AreStarted, DiffersKept, KeepsIndex, LacksIndex, StopsAt};

use crate::ends::names_of;
use crate::sessions::PartSessions;
use crate::status::PartsStatus;
use dg_disk::Disk;
use dg_machine::Limits;
use dg_names::Names;
use dg_seed::Seed;
use dg_session::Session;
use std::alloc::Global;
use std::thread::Threads;

/// The most parts that are read together.
pub const PARTS_MAX: usize = 16;

// A session over each part, none of which is checked.
fn start_all<R: Threads + Sync, D: Disk>(
    rt: &R,
    alloc: Global,
    seed: Seed,
    limits: Limits,
    disks: &mut [D],
) -> Result<Vec<Session>, PartsStatus>
    requires limits { IsWithin limits }
    requires few { length disks.old ≤ PARTS_MAX }
    ensures started { IfOk result (λ sessions. AreStarted limits sessions.items (images_of D.Disk disks.old)) }

    // errors
    ensures stops { IfErr result (StopsAt (images_of D.Disk disks.old)) }
    ensures cause { IsErrOf result PartsStatus.DiskFault → SomeRose (faults_of D.Disk disks.old) (faults_of D.Disk disks.new) }

    // frame
    ensures disks { SyncsAll D.Disk disks.old disks.new }
{
    let Ok(mut sessions) = Vec::with_capacity(alloc, disks.len()) else {
        return Err(PartsStatus::NoMemory);
    };
    for part in 0..disks.len() {
        match Session::start(rt, alloc, seed, &mut disks[part], false, limits) {
            Ok(session) => sessions.push_reserved(session),
            Err(fault) => return Err(PartsStatus::at_part(part as u32, fault)),
        }
    }
    Ok(sessions)
}

// The first part without an index.
fn without_index(sessions: &[Session]) -> Option<u32>
    requires few { length sessions.now ≤ PARTS_MAX }
    ensures some { IfSome result (IsFirstTo LacksIndex KeepsIndex sessions.now) }
    ensures none { IfNone result (Each KeepsIndex sessions.now) }
{
    for (part, session) in sessions.iter().enumerate() {
        if session.params().is_none() {
            return Some(part as u32);
        }
    }
    None
}

// Whether these are the same names, with the same numbers.
fn are_same(left: &Names, right: &Names) -> bool
    ensures { IsTrue result ↔ (left.now ≡ right.now) }
{
    if left.len() != right.len() {
        return false;
    }
    for number in 0..left.len() {
        if left.text(number) != right.text(number) {
            return false;
        }
    }
    true
}

// The first part that has an event and other names than the first one that has an event.
fn other_names(none: &Names, sessions: &[Session]) -> Option<u32>
    requires few { length sessions.now ≤ PARTS_MAX }
    ensures some { IfSome result (IsFirstTo (DiffersKept (names_kept none.now sessions.now)) (AgreesKept (names_kept none.now sessions.now)) sessions.now) }
    ensures none { IfNone result (Each (AgreesKept (names_kept none.now sessions.now)) sessions.now) }
{
    let names = names_of(none, sessions);
    for (part, session) in sessions.iter().enumerate() {
        if session.span().is_some() && !are_same(session.names(), names) {
            return Some(part as u32);
        }
    }
    None
}

/// The sessions with which a run over the parts begins. The status says why there are none: the first part that does not
/// begin, then the first without an index, then the first with an event and other names than the first that has one; or
/// a disk failed, or memory lacked.
pub(crate) fn start_parts<R: Threads + Sync, D: Disk>(
    rt: &R,
    alloc: Global,
    seed: Seed,
    limits: Limits,
    disks: &mut [D],
) -> Result<PartSessions, PartsStatus>
    requires limits { IsWithin limits }
    requires few { length disks.old ≤ PARTS_MAX }
    ensures begun { IfOk result (AreBegun limits (images_of D.Disk disks.old)) }

    // errors
    ensures not_begun { IfErr result (AreNotBegun (images_of D.Disk disks.old)) }
    ensures cause { IsErrOf result PartsStatus.DiskFault → SomeRose (faults_of D.Disk disks.old) (faults_of D.Disk disks.new) }

    // frame
    ensures disks { SyncsAll D.Disk disks.old disks.new }
{
    let sessions = match start_all(rt, alloc, seed, limits, disks) {
        Ok(sessions) => sessions,
        Err(status) => return Err(status),
    };
    if let Some(part) = without_index(&sessions) {
        return Err(PartsStatus::NoIndex(part));
    }
    let none = Names::new(alloc, seed);
    if let Some(part) = other_names(&none, &sessions) {
        return Err(PartsStatus::Mismatch(part));
    }
    Ok(PartSessions::new(alloc, limits, sessions, none))
}
