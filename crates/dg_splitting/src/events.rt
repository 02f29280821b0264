//! The events of the history that is split.
ghost use Rattle.std.specs.Prelude.{◌≡◌, IfErr, IfOk, IfSome, None, is_some, true};
ghost use Rattle.dg_disk.specs.Calls.{ReadsDisk};
ghost use Rattle.dg_history.specs.EventTimes.{RisesFrom};
ghost use Rattle.dg_history.specs.History.{events_of};
ghost use Rattle.dg_machine.specs.MachineState.{MachineState, history_in};
ghost use Rattle.dg_session.specs.Session.{HoldsImage, StandsFor};
ghost use Rattle.dg_splitting.specs.Ends.{StopsReading};
ghost use Rattle.dg_splitting.specs.WholeHistory.{AreApart, AreWhole, IsFirstCrowded, MayStand};

use crate::status::SplitStatus;
use dg_disk::Disk;
use dg_graph::Event;
use dg_history::BATCH_LINES_MAX;
use dg_session::{Session, SessionFault, StartFault};

// The number, from 1, of the first event that has as many events of its time before it as a batch may have.
fn first_crowded(events: &[Event]) -> Option<u64>
    requires { RisesFrom 0 events.now }
    ensures crowded { IfSome result (IsFirstCrowded events.now) }
    ensures apart { result ≡ None → AreApart events.now }
{
    let most = BATCH_LINES_MAX as usize;
    for index in most..events.len() {
        if events[index - most].time == events[index].time {
            return Some(index as u64 + 1);
        }
    }
    None
}

/// The events of the session's index.
///
/// `SplitStatus::Refused` with the first record of events that is not right, or with the first event that has too many of
/// its time before it, which never comes over a file that stands for a history; `SplitStatus::DiskFault` where the disk
/// failed, `SplitStatus::NoMemory` for want of memory.
pub(crate) fn read_events<D: Disk>(
    session: &Session,
    disk: &mut D,
) -> Result<Vec<Event>, SplitStatus>
    requires there { is_some session.now.parts.index ≡ true }
    requires image { HoldsImage session.now.parts (D.image disk.old) }
    ensures own { IfSome (D.image disk.old) (λ image. (m : MachineState) → StandsFor session.now.parts image m
        → IfOk result (λ events. events.items ≡ events_of (history_in m.index))) }
    ensures whole { IfOk result (λ events. AreWhole session.now.parts.names events.items) }
    ensures stops { IfErr result (λ status. StopsReading D.Disk (MayStand session.now.parts (D.image disk.old)) status disk.old disk.new) }
    ensures disk { ReadsDisk D.Disk disk.old disk.new }
{
    let events = session.history(disk)?;
    match first_crowded(&events) {
        None => Ok(events),
        Some(number) => Err(SplitStatus::Refused(SessionFault::Start(StartFault::BadRecent(
            number,
        )))),
    }
}
