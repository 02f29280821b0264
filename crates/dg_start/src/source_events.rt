//! Reading the events of several records of an index.

ghost use Rattle.std.specs.Prelude.{◌≤◌, IfOk, IfErr, IfSome, IsErrOf, ◌≡◌};
ghost use Rattle.std.specs.List.{All};
ghost use Rattle.dg_disk.specs.Calls.{Fails, ReadsDisk};
ghost use Rattle.dg_file.specs.Images.{IsOpenedAs};
ghost use Rattle.dg_records.specs.ColumnReads.{TakesOrFails};
ghost use Rattle.dg_text.specs.declared.limits.TheConstants.{NAMES_MAX};
ghost use Rattle.dg_start.specs.Calls.{AreReadEvents};
ghost use Rattle.dg_start.specs.RecentEvents.{events_in_sources};
ghost use Rattle.dg_start.specs.EventSources.{CanBeRead, WhereTold, bytes_in_sources, source_of, sources_in};
ghost use Rattle.dg_start.specs.Refusals.{IsReason};

use crate::event_source::EventSource;
use crate::fault::StartFault;
use crate::record::read_record;
use dg_disk::Disk;
use dg_file::Index;
use dg_graph::Event;
use std::alloc::Global;

/// The events of these records of an index that has so many names, one record after another.
///
/// `StartFault::BadRecord` for the first column that no events are spelled as, or for the structure of a record
/// whose columns do not come together to as many events as are due; `StartFault::Disk` where the disk failed,
/// `StartFault::Memory` for want of memory.
pub fn read_sources<D: Disk>(
    alloc: Global,
    index: &Index,
    disk: &mut D,
    names: u32,
    sources: &[EventSource],
) -> Result<Vec<Event>, StartFault>
    requires readable { All (λ s. CanBeRead index.now.opening (source_of s)) sources.now }
    requires names { names ≤ NAMES_MAX }
    requires image { IfSome (D.image disk.old) (λ image. IsOpenedAs image index.now.opening) }

    // the events, and the bytes read
    ensures done { IfOk result (λ events. AreReadEvents (D.image disk.old) names index.now.opening (sources_in sources.now) events.items) }
    ensures takes { WhereTold (D.image disk.old)
        (λ image. TakesOrFails result (bytes_in_sources image index.now.opening (sources_in sources.now)) (D.taken disk.old) (D.taken disk.new)) }

    // why there are none
    ensures refused { IfErr result (λ fault. WhereTold (D.image disk.old)
        (λ image. IsReason fault (events_in_sources image names index.now.opening (sources_in sources.now)))) }
    ensures cause { IsErrOf result StartFault.Disk → Fails D.Disk disk.old disk.new }

    // what it leaves
    ensures disk { ReadsDisk D.Disk disk.old disk.new }
{
    let mut events = Vec::new(alloc);
    for source in sources {
        let more = read_record(alloc, index, disk, names, *source)?;
        events.extend_from_slice(&more)?;
    }
    Ok(events)
}
