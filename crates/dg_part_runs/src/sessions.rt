//! Sessions over the parts of a history, with the handles of what they show together.
ghost use Rattle.std.specs.Prelude.{◌≡◌, [], false, length, refl};
ghost use Rattle.dg_history.specs.History.{in_range};
ghost use Rattle.dg_machine.specs.Needs.{earliest};
ghost use Rattle.dg_part_runs.specs.HeldParts.{ends_kept, names_kept, refusal_for};
ghost use Rattle.dg_part_runs.specs.PartAnswers.{AnswersPart, AreReady, ListsSet, release_reply};
ghost use Rattle.dg_part_runs.specs.PartsMachine.{IsOfParts, without_handle, without_set};

use crate::ends::{ends_of, names_of};
use crate::gather::read_parts;
use crate::handle_sets::HandleSets;
use dg_disk::Disk;
use dg_graph::Columns;
use dg_io::{Lines, Source};
use dg_machine::{
    BodyLines, Command, HANDLE_MAX, Head, LIVE_HANDLES_MAX, Limits, Query, QueryHead, Refusal,
    Reply,
};
use dg_names::Names;
use dg_records::RecordFault;
use dg_session::Session;
use dg_turns::{Machine, Stop};
use std::alloc::Global;
use std::thread::Threads;

/// Sessions over the parts of a history, and the live handles with what these showed together.
#[derive(Drop)]
pub(crate) struct PartSessions {
    sessions: Vec<Session>,
    handles: HandleSets,
    // The names of a reply where no part has an event: there are none.
    nameless: Names,
    alloc: Global,
}

// The reply that tells of what could not be read.
fn refusal_of(fault: RecordFault) -> Refusal
    ensures { result ≡ refusal_for fault }
{
    match fault {
        RecordFault::Disk => Refusal::StoreRead,
        RecordFault::Damaged(key, column) => Refusal::Damaged(key, column),
        RecordFault::Memory => Refusal::OutOfMemory,
    }
}

// Whether the instant lies between the first and the last one.
fn in_range(ends: Option<(u64, u64)>, t: u64) -> bool
    ensures { result ≡ in_range ends t }
{
    match ends {
        Some((first, last)) => first <= t && t <= last,
        None => false,
    }
}

impl PartSessions {
    /// No handle yet, over these sessions, with the names of a reply where no part has an event.
    pub(crate) fn new(
        alloc: Global,
        limits: Limits,
        sessions: Vec<Session>,
        nameless: Names,
    ) -> PartSessions
        ensures sessions { result.sessions.items ≡ sessions.items }
        ensures sets { result.handles.sets ≡ [] }
        ensures next { result.handles.next ≡ limits.first_handle }
        ensures nameless { result.nameless ≡ nameless }
    {
        PartSessions {
            sessions,
            handles: HandleSets::new(alloc, limits.first_handle),
            nameless,
            alloc,
        }
    }

    // Why there is no new handle for the instant.
    fn refused_at(&self, t: u64) -> Option<Refusal>
        ensures { result ≡ earliest (without_handle (ends_kept self.now.sessions.items) t (length self.now.handles.sets) self.now.handles.next) }
    {
        let ends = ends_of(&self.sessions);
        if !in_range(ends, t) {
            return Some(Refusal::OutOfRange(ends));
        }
        let live = self.handles.live();
        if (live + 1) as usize > LIVE_HANDLES_MAX {
            return Some(Refusal::PoolFull(live, 1));
        }
        if self.handles.next() + 1 > u64::from(HANDLE_MAX) + 1 {
            return Some(Refusal::HandlesSpent);
        }
        None
    }

    // A new handle for what the parts together show as of the instant.
    fn at<R: Threads + Sync, D: Disk>(
        &mut self,
        rt: &R,
        t: u64,
        cols: Columns,
        disks: &mut [D],
    ) -> Reply
        requires ready { AreReady D.Disk self.old disks.old }
        requires silent { cols.transient ≡ false }
        ensures answers { AnswersPart D.Disk (Command.At t cols) [] self.old disks.old self.new disks.new result }
    {
        if let Some(refusal) = self.refused_at(t) {
            return Reply::Refused(refusal);
        }
        match read_parts(rt, self.alloc, t, cols, &mut self.sessions, disks) {
            Ok((set, weight)) => match self.handles.add(set) {
                Ok(handle) => Reply::headed(self.alloc, Head::At { handle, weight }),
                Err(_) => Reply::Refused(Refusal::OutOfMemory),
            },
            Err(fault) => Reply::Refused(refusal_of(fault)),
        }
    }

    // The elements of a handle.
    fn list(&self, handle: u32) -> Reply
        ensures { ListsSet self.now.handles.sets handle result }
    {
        let Some(set) = self.handles.set(handle) else {
            return Reply::Refused(Refusal::UnknownHandle(handle));
        };
        match Vec::from_slice(self.alloc, set.items()) {
            Ok(elements) => Reply::Answered {
                head: Head::Asked {
                    handle,
                    told: QueryHead::List {
                        lines: elements.len() as u64,
                    },
                },
                body: BodyLines::from_elements(elements),
            },
            Err(_) => Reply::Refused(Refusal::OutOfMemory),
        }
    }

    // The handle is given up.
    fn release(&mut self, handle: u32) -> Reply
        ensures released { result ≡ release_reply self.old.handles.sets handle }
        ensures sets { self.new.handles.sets ≡ without_set handle self.old.handles.sets }
        ensures next { self.new.handles.next ≡ self.old.handles.next }
        ensures sessions { self.new.sessions ≡ self.old.sessions }
        ensures nameless { self.new.nameless ≡ self.old.nameless }
    {
        if self.handles.release(handle) {
            Reply::headed(self.alloc, Head::Released { handle })
        } else {
            Reply::Refused(Refusal::UnknownHandle(handle))
        }
    }
}

impl<D: Disk> Machine<Vec<D>> for PartSessions {
    ghost takes = { λ c. IsOfParts c };

    ghost holds = { λ s w. AreReady D.Disk s w.items };

    ghost texts = { λ s. names_kept s.nameless s.sessions.items };

    ghost answers = { λ c got s w then_s then_w reply. AnswersPart D.Disk c got s w.items then_s then_w.items reply };

    ghost breaks = { λ c got s w then_s then_w. ⊥ };

    ghost stays = { λ s w then_s then_w. (then_s ≡ s) × (then_w ≡ w) };

    fn names(&self) -> &Names {
        names_of(&self.nameless, &self.sessions)
    }

    fn carry<R: Threads + Sync, S: Source>(
        &mut self,
        rt: &R,
        command: &Command,
        lines: &mut Lines,
        source: &mut S,
        world: &mut Vec<D>,
    ) -> Result<Reply, Stop> {
        match *command {
            Command::At { t, cols } => Ok(self.at(rt, t, cols, world)),
            Command::Ask {
                handle,
                query: Query::List,
            } => Ok(self.list(handle)),
            Command::Release { handle } => Ok(self.release(handle)),
            _ => unreachable!(),
        }
    }

    ghost stays_so = { λ s w. (refl, refl) };
}
