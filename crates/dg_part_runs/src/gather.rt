//! What the parts together show as of an instant.
ghost use Rattle.std.specs.Prelude.{◌≡◌, [], IfOk, IfSome, IsErrOf, length, map, sum};
ghost use Rattle.dg_disk.specs.Calls.{Fails, ReadsDisk};
ghost use Rattle.dg_gather.specs.Gathered.{shown_by};
ghost use Rattle.dg_machine.specs.declared.limits.Limits.{Limits};
ghost use Rattle.dg_part_runs.specs.Disks.{ReadsAll, SomeRose, faults_of, images_of};
ghost use Rattle.dg_part_runs.specs.HeldParts.{AreGathered, AreParts, GathersPart, IsPart, NeverDamaged, ReadsParts};
ghost use Rattle.dg_part_runs.specs.PartDamage.{TellsFirst, TellsMet};
ghost use Rattle.dg_part_runs.specs.PartTimes.{time_within};

use dg_disk::Disk;
use dg_gather::{Gathered, compose_parts};
use dg_graph::Columns;
use dg_records::RecordFault;
use dg_session::Session;
use dg_set::Set;
use std::alloc::Global;
use std::thread::Threads;

// The instant of a part with this first and last instant that stands for the instant.
fn time_within(ends: Option<(u64, u64)>, t: u64) -> Option<u64>
    ensures { result ≡ time_within ends t }
{
    let (first, last) = ends?;
    let time = t.min(last);
    if time < first { None } else { Some(time) }
}

// What leads to nothing. It takes no memory.
fn nothing(alloc: Global, cols: Columns) -> Gathered
    ensures shown { shown_by result ≡ [] }
    ensures weight { result.weight ≡ 0 }
{
    Gathered {
        base: Set::new(alloc),
        writings: Vec::new(alloc),
        cols,
        weight: 0,
    }
}

// What leads to what the part shows as of the instant, within its own range. Where it is not asked, nothing is read.
fn gather_part<R: Threads, D: Disk>(
    rt: &R,
    alloc: Global,
    t: u64,
    cols: Columns,
    session: &mut Session,
    disk: &mut D,
) -> Result<Gathered, RecordFault>
    requires part { (limits : Limits) × IsPart limits session.old (D.image disk.old) }
    ensures gathers { (limits : Limits) → GathersPart limits session.old (D.image disk.old) t cols result }

    // errors
    ensures cause { IsErrOf result RecordFault.Disk → Fails D.Disk disk.old disk.new }
    ensures damage { TellsMet t cols session.old (D.image disk.old) result }

    // frame
    ensures same { session.new ≡ session.old }
    ensures disk { ReadsDisk D.Disk disk.old disk.new }
{
    match time_within(session.span(), t) {
        Some(time) => session.gather(rt, time, cols, disk),
        None => Ok(nothing(alloc, cols)),
    }
}

// What leads to what each part shows as of the instant. The first fault stops it.
fn gather_all<R: Threads, D: Disk>(
    rt: &R,
    alloc: Global,
    t: u64,
    cols: Columns,
    sessions: &mut [Session],
    disks: &mut [D],
) -> Result<Vec<Gathered>, RecordFault>
    requires many { length disks.old ≡ length sessions.old }
    requires parts { (limits : Limits) × AreParts limits sessions.old (images_of D.Disk disks.old) }
    ensures gathered { (limits : Limits) → IfOk result (λ gathered. AreGathered limits t cols sessions.old (images_of D.Disk disks.old) gathered.items) }

    // errors
    ensures never { (limits : Limits) → NeverDamaged limits sessions.old (images_of D.Disk disks.old) result }
    ensures cause { IsErrOf result RecordFault.Disk → SomeRose (faults_of D.Disk disks.old) (faults_of D.Disk disks.new) }
    ensures damage { TellsFirst t cols sessions.old (images_of D.Disk disks.old) result }

    // frame
    ensures same { sessions.new ≡ sessions.old }
    ensures disks { ReadsAll D.Disk disks.old disks.new }
{
    let mut gathered = Vec::with_capacity(alloc, sessions.len())?;
    for part in 0..sessions.len() {
        gathered.push(gather_part(rt, alloc, t, cols, &mut sessions[part], &mut disks[part])?)?;
    }
    Ok(gathered)
}

// The bytes that were read for all of them. `None` where they are more than a u64 has.
fn weight_of(gathered: &[Gathered]) -> Option<u64>
    ensures { IfSome result (λ weight. weight ≡ sum (map (λ g. g.weight) gathered.now)) }
{
    let mut weight: u64 = 0;
    for part in gathered {
        weight = weight.checked_add(part.weight)?;
    }
    Some(weight)
}

/// What the parts together show as of the instant, each within its own range, and the bytes that were read for it.
///
/// `RecordFault::Damaged` with the first damaged column of the first part that has one, `RecordFault::Disk` where a disk failed,
/// `RecordFault::Memory` for want of memory.
pub(crate) fn read_parts<R: Threads + Sync, D: Disk>(
    rt: &R,
    alloc: Global,
    t: u64,
    cols: Columns,
    sessions: &mut [Session],
    disks: &mut [D],
) -> Result<(Set, u64), RecordFault>
    requires many { length disks.old ≡ length sessions.old }
    requires parts { (limits : Limits) × AreParts limits sessions.old (images_of D.Disk disks.old) }
    ensures reads { (limits : Limits) → ReadsParts limits sessions.old (images_of D.Disk disks.old) t cols result }

    // errors
    ensures cause { IsErrOf result RecordFault.Disk → SomeRose (faults_of D.Disk disks.old) (faults_of D.Disk disks.new) }
    ensures damage { TellsFirst t cols sessions.old (images_of D.Disk disks.old) result }

    // frame
    ensures same { sessions.new ≡ sessions.old }
    ensures disks { ReadsAll D.Disk disks.old disks.new }
{
    let gathered = gather_all(rt, alloc, t, cols, sessions, disks)?;
    let Some(weight) = weight_of(&gathered) else {
        return Err(RecordFault::Memory);
    };
    let set = compose_parts(rt, alloc, &gathered)?;
    Ok((set, weight))
}
