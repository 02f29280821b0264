//! A disk in memory, for tests: given calls fail, and what a crash might have left is known.
ghost use Rattle.std.specs.Prelude.{◌≡◌, ◌+◌, ◌<◌, ◌≤◌, [], ◌∷◌, ◌++◌, length, IsTrue, IsErr, Some, IfOk, OnOk, OnErr, vec_len};
ghost use Rattle.std.specs.Result.{is_err};
ghost use Rattle.std.specs.Vec.{vec_capacity};
ghost use Rattle.dg_disk.specs.Counts.{Rose, raised_by};
ghost use Rattle.dg_disk.specs.Crash.{IsSettled, LeavesTorn, Passes};
ghost use Rattle.dg_disk.specs.Frame.{OnlyReads, OnlyWrites, ReadsAndSyncs};
ghost use Rattle.dg_disk.specs.Deeds.{Synced, Wrote};
ghost use Rattle.dg_disk.specs.Entries.{deed_of, deeds_of};
ghost use Rattle.dg_disk.specs.Image.{IsRangeOf, WritesPart, put_at, with_piece};
ghost use Rattle.dg_disk.specs.Memory.{LeftSince, MayLeave, call_failed, called, done, image_is_left, failed_where, image_of, is_due, moment_of, next_is_due, present_alone, present_counts, read_done, write_fails};

use crate::disk::{Disk, Failed};
use std::alloc::{AllocError, Global};
use std::marker::Model;

// The calls of a disk in memory, of which some fail.
#[derive(Drop)]
struct Calls {
    most: usize,
    fails: Vec<u64>,
    made: u64,
    faults: u64,
    write_faults: u64,
    unrecorded: u64,
}

impl Calls {
    // Counts one call more, and says whether it is one that fails.
    fn next_fails(&mut self) -> bool
        ensures value { result ≡ is_due self.old.most self.old.fails.items self.old.made }
        ensures made { self.new ≡ record self.old { made = raised_by 1 self.old.made } }
    {
        let fails = self.most as u64 <= self.made || self.fails.contains(&self.made);
        self.made = self.made.saturating_add(1);
        fails
    }

    // Counts a failure of a call that writes nothing.
    fn fail(&mut self) -> Failed
        ensures raised { self.new ≡ record self.old { faults = raised_by 1 self.old.faults } }
    {
        self.faults = self.faults.saturating_add(1);
        Failed
    }

    // Counts a failure of a write or a sync.
    fn fail_write(&mut self) -> Failed
        ensures raised { self.new ≡ record self.old { faults = raised_by 1 self.old.faults; write_faults = raised_by 1 self.old.write_faults } }
    {
        self.write_faults = self.write_faults.saturating_add(1);
        self.fail()
    }

    // Counts a failure of a write or a sync for want of memory to record it.
    fn fail_to_record(&mut self) -> Failed
        ensures raised { self.new ≡ record self.old { faults = raised_by 1 self.old.faults; write_faults = raised_by 1 self.old.write_faults; unrecorded = raised_by 1 self.old.unrecorded } }
    {
        self.unrecorded = self.unrecorded.saturating_add(1);
        self.fail_write()
    }
}

// One entry of the record of what was done to a disk in memory.
#[derive(Drop)]
enum Entry {
    Write { offset: u64, piece: Vec<u8> },
    Sync,
}

/// A disk in memory, for tests: writes go up to a given room, and given calls fail. It keeps a record
/// of its writes and syncs, so that what a crash at each past moment might have left is known.
#[derive(Drop)]
pub struct MemoryDisk {
    alloc: Global,
    first: Vec<u8>,
    log: Vec<Entry>,
    bytes: Vec<u8>,
    room: usize,
    calls: Calls,
    taken: u64,
}

impl Model for MemoryDisk {
    ghost use Rattle.dg_disk.specs.Memory.{DiskState};

    ghost Value = { DiskState };

    ghost use Rattle.std.specs.Prelude.{◌≡◌, ◌≤◌};
    ghost use Rattle.std.specs.Vec.{vec_capacity};
    ghost use Rattle.dg_disk.specs.Deeds.{after_all, settled};
    ghost use Rattle.dg_disk.specs.Entries.{deeds_of};

    ghost view = { λ d. record { first = d.first.items; deeds = deeds_of d.log.items; room = d.room; calls = d.calls.most; fails = d.calls.fails.items; made = d.calls.made; faults = d.calls.faults; write_faults = d.calls.write_faults; unrecorded = d.calls.unrecorded; taken = d.taken } };

    ghost invariant = { λ d. (d.bytes.items ≡ (after_all (deeds_of d.log.items) (settled d.first.items)).image) × (d.room ≤ vec_capacity d.bytes) };
}

impl MemoryDisk {
    /// A disk with a copy of `image`, all of it on the device. It fails each write that reaches past
    /// `room` bytes, each call after the first `calls`, the calls whose numbers, from 0, stand in
    /// `fails`, and a write or sync that its record has no memory for. A call that fails leaves the
    /// image as it was. `AllocError` for want of memory.
    pub fn new(
        alloc: Global,
        image: &[u8],
        room: usize,
        calls: usize,
        fails: &[u64],
    ) -> Result<MemoryDisk, AllocError>
        ensures { IfOk result (λ d. d ≡ record { first = image.now; deeds = []; room = room; calls = calls; fails = fails.now; made = 0; faults = 0; write_faults = 0; unrecorded = 0; taken = 0 }) }
    {
        let mut bytes = Vec::with_capacity(alloc, room.max(image.len()))?;
        bytes.extend_from_slice(image)?;
        Ok(MemoryDisk {
            alloc,
            first: Vec::from_slice(alloc, image)?,
            log: Vec::new(alloc),
            bytes,
            room,
            calls: Calls {
                most: calls,
                fails: Vec::from_slice(alloc, fails)?,
                made: 0,
                faults: 0,
                write_faults: 0,
                unrecorded: 0,
            },
            taken: 0,
        })
    }

    /// The bytes as they read.
    pub fn image(&self) -> &[u8]
        ensures { result.now ≡ image_of self.now }
    {
        self.bytes.as_slice()
    }

    /// How many bytes were read so far. The count stays at the last value of a u64.
    pub fn taken(&self) -> u64
        ensures { result ≡ self.now.taken }
    {
        self.taken
    }

    /// How many writes and syncs failed for want of memory to record them, and for nothing else. The
    /// count stays at the last value of a u64.
    pub fn unrecorded(&self) -> u64
        ensures { result ≡ self.now.unrecorded }
    {
        self.calls.unrecorded
    }
}

impl Disk for MemoryDisk {
    ghost image = { λ d. Some (image_of d) };

    ghost faults = { λ d. d.faults };

    ghost write_faults = { λ d. d.write_faults };

    ghost taken = { λ d. d.taken };

    ghost cached = { λ d. 0 };

    ghost may_leave = { MayLeave };

    ghost moment = { moment_of };

    ghost left_since = { LeftSince };

    fn len(&mut self) -> Result<u64, Failed>
        ensures len { IfOk result (λ n. n ≡ length (image_of self.old)) }
        ensures done { OnOk result (self.new ≡ called self.old) }

        // errors
        ensures fails { is_err result ≡ next_is_due self.old }
        ensures failed { OnErr result (self.new ≡ call_failed self.old) }
        ensures cause { OnErr result (Rose self.old.faults self.new.faults) }

        // frame
        ensures frame { OnlyReads (λ d. Some (image_of d)) (λ d. d.faults) (λ d. d.write_faults) (λ d. 0) MayLeave moment_of LeftSince self.old self.new }
        ensures same_taken { self.new.taken ≡ self.old.taken }

        // crashes
        ensures time { Passes (moment_of self.old) (moment_of self.new) (LeftSince self.old) (LeftSince self.new) (MayLeave self.new) }
    {
        if self.calls.next_fails() {
            return Err(self.calls.fail());
        }
        Ok(self.bytes.len() as u64)
    }

    fn read_at(&mut self, offset: u64, into: &mut [u8]) -> Result<(), Failed>
        requires { offset + length into.old ≤ length (image_of self.old) }
        ensures read { OnOk result (IsRangeOf (Some (image_of self.old)) offset into.new) }
        ensures taken { OnOk result (self.new.taken ≡ raised_by (length into.new) self.old.taken) }
        ensures done { OnOk result (self.new ≡ read_done (length into.new) self.old) }

        // errors
        ensures fails { is_err result ≡ next_is_due self.old }
        ensures failed { OnErr result (self.new ≡ call_failed self.old) }
        ensures cause { OnErr result (Rose self.old.faults self.new.faults) }
        ensures none_taken { OnErr result (self.new.taken ≡ self.old.taken) }

        // frame
        ensures frame { OnlyReads (λ d. Some (image_of d)) (λ d. d.faults) (λ d. d.write_faults) (λ d. 0) MayLeave moment_of LeftSince self.old self.new }

        // crashes
        ensures time { Passes (moment_of self.old) (moment_of self.new) (LeftSince self.old) (LeftSince self.new) (MayLeave self.new) }
    {
        if self.calls.next_fails() {
            return Err(self.calls.fail());
        }
        let start = offset as usize;
        into.copy_from_slice(&self.bytes[start..start + into.len()]);
        self.taken = self.taken.saturating_add(into.len() as u64);
        Ok(())
    }

    fn write_at(&mut self, offset: u64, piece: &[u8]) -> Result<(), Failed>
        requires { offset ≤ length (image_of self.old) }
        ensures written { OnOk result (Some (image_of self.new) ≡ with_piece offset piece.now (Some (image_of self.old))) }
        ensures done { OnOk result (self.new ≡ done (Wrote offset piece.now) self.old) }

        // errors
        ensures fails { IsTrue (write_fails self.old offset (length piece.now)) → IsErr result }
        ensures failed { OnErr result (self.new ≡ failed_where (write_fails self.old offset (length piece.now)) self.old) }
        ensures part { OnErr result (WritesPart offset (length piece.now) (Some (image_of self.old)) (Some (image_of self.new))) }
        ensures cause { OnErr result (Rose self.old.faults self.new.faults) }
        ensures write_cause { OnErr result (Rose self.old.write_faults self.new.write_faults) }

        // frame
        ensures frame { OnlyWrites (λ d. Some (image_of d)) (λ d. d.faults) (λ d. d.write_faults) (λ d. d.taken) (λ d. 0) self.old self.new }

        // crashes
        ensures crash { LeavesTorn offset (length piece.now) (MayLeave self.old) (MayLeave self.new) }
        ensures time { Passes (moment_of self.old) (moment_of self.new) (LeftSince self.old) (LeftSince self.new) (MayLeave self.new) }
    {
        if self.calls.next_fails() {
            return Err(self.calls.fail_write());
        }
        let start = offset as usize;
        if start + piece.len() > self.room {
            return Err(self.calls.fail_write());
        }
        match note_write(self.alloc, &mut self.log, offset, piece) {
            Ok(()) => {
                put_piece(&mut self.bytes, start, piece);
                Ok(())
            }
            Err(_) => Err(self.calls.fail_to_record()),
        }
    }

    fn sync(&mut self) -> Result<(), Failed>
        ensures settled { OnOk result (IsSettled (Some (image_of self.new)) (MayLeave self.new)) }
        ensures done { OnOk result (self.new ≡ done Synced self.old) }

        // errors
        ensures fails { IsTrue (next_is_due self.old) → IsErr result }
        ensures failed { OnErr result (self.new ≡ failed_where (next_is_due self.old) self.old) }
        ensures cause { OnErr result (Rose self.old.faults self.new.faults) }
        ensures write_cause { OnErr result (Rose self.old.write_faults self.new.write_faults) }

        // frame
        ensures frame { ReadsAndSyncs (λ d. Some (image_of d)) (λ d. d.faults) (λ d. d.write_faults) (λ d. 0) MayLeave moment_of LeftSince self.old self.new }
        ensures same_taken { self.new.taken ≡ self.old.taken }

        // crashes
        ensures time { Passes (moment_of self.old) (moment_of self.new) (LeftSince self.old) (LeftSince self.new) (MayLeave self.new) }
    {
        if self.calls.next_fails() {
            return Err(self.calls.fail_write());
        }
        match note(&mut self.log, Entry::Sync) {
            Ok(()) => Ok(()),
            Err(_) => Err(self.calls.fail_to_record()),
        }
    }

    ghost leaves_image = { image_is_left };

    ghost counts_now = { present_counts };

    ghost only_now = { present_alone };
}

// Adds an entry to the record. At `Err` the record is as it was.
fn note(log: &mut Vec<Entry>, entry: Entry) -> Result<(), AllocError>
    ensures ok { OnOk result (deeds_of log.new.items ≡ deeds_of log.old.items ++ deed_of entry ∷ []) }
    ensures err { OnErr result (log.new.items ≡ log.old.items) }
{
    log.push(entry)?;
    Ok(())
}

// Adds a write to the record, with a copy of the piece. At `Err` the record is as it was.
fn note_write(
    alloc: Global,
    log: &mut Vec<Entry>,
    offset: u64,
    piece: &[u8],
) -> Result<(), AllocError>
    ensures ok { OnOk result (deeds_of log.new.items ≡ deeds_of log.old.items ++ Wrote offset piece.now ∷ []) }
    ensures err { OnErr result (log.new.items ≡ log.old.items) }
{
    let piece = Vec::from_slice(alloc, piece)?;
    note(log, Entry::Write { offset, piece })
}

// Puts the piece at the offset, over what is there and past the end.
fn put_piece(bytes: &mut Vec<u8>, offset: usize, piece: &[u8])
    requires offset { offset ≤ vec_len bytes.old }
    requires room { offset + length piece.now ≤ vec_capacity bytes.old }
    ensures bytes { bytes.new.items ≡ put_at offset piece.now bytes.old.items }
    ensures capacity { vec_capacity bytes.old ≤ vec_capacity bytes.new }
{
    let inside = piece.len().min(bytes.len() - offset);
    bytes.extend_from_slice(&piece[inside..]).unwrap();
    bytes[offset..offset + inside].copy_from_slice(&piece[..inside]);
}
