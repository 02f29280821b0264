//! A dump, from the opening of the index to its end.
ghost use Rattle.std.specs.Prelude.{◌≡◌, [], true, IfErr, IfOk, IfSome, IsErrOf, Ok, OnOk};
ghost use Rattle.dg_columns.specs.ColumnLaws.{AreBytes};
ghost use Rattle.dg_disk.specs.Calls.{Fails, ReadsDisk, SyncsDisk};
ghost use Rattle.dg_dumping.specs.Dumped.{ComesTo, Dumped, DumpedSpan, IsBefore};
ghost use Rattle.dg_history.specs.History.{History};
ghost use Rattle.dg_index.specs.ImageOfHistory.{IsImageOf};
ghost use Rattle.dg_index.specs.OpenedIndex.{opening};

use crate::changes::write_span;
use crate::script::write_script;
use crate::span::Span;
use crate::status::{DumpFault, DumpStatus};
use dg_disk::Disk;
use dg_file::Index;
use dg_io::Sink;
use dg_names::Names;
use dg_seed::Seed;
use dg_sound::Soundness;
use dg_sound_files::{law_sound_files_stand, law_standing_files_are_sound};
use dg_verify::verify;
use std::alloc::Global;
use std::thread::Threads;

// Refuses an index that is not what its own events determine.
fn check<R: Threads, D: Disk>(
    rt: &R,
    alloc: Global,
    index: &Index,
    disk: &mut D,
    names: &Names,
) -> Result<(), DumpStatus>
    requires image { IfSome (D.image disk.old) (λ image. opening image ≡ Ok (record { index = index.now.opening; names = names.now })) }
    ensures stands { OnOk result (IfSome (D.image disk.old) (λ image. AreBytes image → (z : History) × IsImageOf z image)) }
    ensures refused { IfErr result (λ status. IfSome (D.image disk.old) (λ image. ComesTo true status image)) }
    ensures unbegun { IfErr result (λ status. IsBefore status) }
    ensures cause { IsErrOf result DumpStatus.DiskFault → Fails D.Disk disk.old disk.new }
    ensures disk { ReadsDisk D.Disk disk.old disk.new }
{
    law_sound_files_stand();
    match verify(rt, alloc, index, disk, names)? {
        Soundness::Sound(_) => Ok(()),
        Soundness::Unsound(key, col) => Err(DumpStatus::Refused(DumpFault::Unsound(key, col))),
    }
}

// Opens the index that the disk has, and fills `names` with its names. With `checked` it is what its own events determine.
fn open_index<R: Threads, D: Disk>(
    rt: &R,
    alloc: Global,
    disk: &mut D,
    names: &mut Names,
    checked: bool,
) -> Result<Index, DumpStatus>
    requires names { names.old ≡ [] }
    ensures opened { IfOk result (λ index. IfSome (D.image disk.old) (λ image. opening image ≡ Ok (record { index = index.opening; names = names.new }))) }
    ensures stands { OnOk result (checked ≡ true → IfSome (D.image disk.old) (λ image. AreBytes image → (z : History) × IsImageOf z image)) }
    ensures refused { IfErr result (λ status. IfSome (D.image disk.old) (λ image. ComesTo checked status image)) }
    ensures unbegun { IfErr result (λ status. IsBefore status) }
    ensures cause { IsErrOf result DumpStatus.DiskFault → Fails D.Disk disk.old disk.new }
    ensures disk { SyncsDisk D.Disk disk.old disk.new }
{
    let index = Index::reopen(alloc, disk, names)?;
    if checked {
        check(rt, alloc, &index, disk, names)?;
    }
    Ok(index)
}

// Opens the index and writes its script, as `dump` says.
fn dump_index<R: Threads, D: Disk, K: Sink>(
    rt: &R,
    alloc: Global,
    seed: Seed,
    disk: &mut D,
    sink: &mut K,
    checked: bool,
) -> Result<(), DumpStatus>
    ensures done { OnOk result (Dumped D.Disk K.Sink checked DumpStatus.Done disk.old disk.new sink.old sink.new) }
    ensures ended { IfErr result (λ status. Dumped D.Disk K.Sink checked status disk.old disk.new sink.old sink.new) }
    ensures disk { SyncsDisk D.Disk disk.old disk.new }
{
    law_standing_files_are_sound();
    let mut names = Names::new(alloc, seed);
    let index = open_index(rt, alloc, disk, &mut names, checked)?;
    write_script(alloc, &index, disk, &names, sink)
}

/// Writes to the sink the script that makes the index which the disk has. With `checked` an index that is not exactly what
/// its own events determine is refused before the first write; without it only the records that are written are read, each
/// once, and a record that is found damaged ends the dump behind what was written. The names hash with the seed, on which no
/// answer depends. Nothing is written to the disk.
pub fn dump<R: Threads, D: Disk, K: Sink>(
    rt: &R,
    alloc: Global,
    seed: Seed,
    disk: &mut D,
    sink: &mut K,
    checked: bool,
) -> DumpStatus
    ensures dumped { Dumped D.Disk K.Sink checked result disk.old disk.new sink.old sink.new }
    ensures disk { SyncsDisk D.Disk disk.old disk.new }
{
    match dump_index(rt, alloc, seed, disk, sink, checked) {
        Ok(()) => DumpStatus::Done,
        Err(status) => status,
    }
}

// Opens the index and writes the changes of the span, as `dump_span` says.
fn dump_index_span<R: Threads, D: Disk, K: Sink>(
    rt: &R,
    alloc: Global,
    seed: Seed,
    disk: &mut D,
    sink: &mut K,
    checked: bool,
    span: Span,
) -> Result<(), DumpStatus>
    ensures done { OnOk result (DumpedSpan span D.Disk K.Sink checked DumpStatus.Done disk.old disk.new sink.old sink.new) }
    ensures ended { IfErr result (λ status. DumpedSpan span D.Disk K.Sink checked status disk.old disk.new sink.old sink.new) }
    ensures disk { SyncsDisk D.Disk disk.old disk.new }
{
    law_standing_files_are_sound();
    let mut names = Names::new(alloc, seed);
    let index = open_index(rt, alloc, disk, &mut names, checked)?;
    write_span(alloc, &index, disk, &names, sink, span)
}

/// Writes to the sink the lines of the changes of the index which the disk has that are in the span, in their order, as
/// they stand in its script, and no other line. The rest is as `dump` says; but a record is not read that has no change of
/// the span by what the index keeps of its lists of events.
pub fn dump_span<R: Threads, D: Disk, K: Sink>(
    rt: &R,
    alloc: Global,
    seed: Seed,
    disk: &mut D,
    sink: &mut K,
    checked: bool,
    span: Span,
) -> DumpStatus
    ensures dumped { DumpedSpan span D.Disk K.Sink checked result disk.old disk.new sink.old sink.new }
    ensures disk { SyncsDisk D.Disk disk.old disk.new }
{
    match dump_index_span(rt, alloc, seed, disk, sink, checked, span) {
        Ok(()) => DumpStatus::Done,
        Err(status) => status,
    }
}
