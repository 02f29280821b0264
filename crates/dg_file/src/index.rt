//! An index over a disk: it is made, reopened, read, and given a batch.

ghost use Rattle.std.specs.Prelude.{◌≡◌, ◌≢◌, ◌≤◌, ◌<◌, ◌+◌, ◌-◌, ◌++◌, ◌∷◌, ℕ, [], ◌&&◌, min, not, true, false, drop, length, take, Some, None, Ok, Err, is_some, slice_get, slice_index, IfSome, IfOk, IfErr, OnOk, OnErr, IsErrOf};
ghost use Rattle.std.specs.Map.{lookup};
ghost use Rattle.dg_disk.specs.Calls.{Fails, FailsToWrite, IsOnDevice, LeftByCrash, ReadsDisk, SyncsDisk, WritesDisk};
ghost use Rattle.dg_disk.specs.Counts.{raised_by};
ghost use Rattle.dg_history.specs.declared.limits.TheConstants.{EVENTS_MAX, FILE_BYTES_MAX};
ghost use Rattle.dg_graph.specs.declared.limits.TheConstants.{TIME_MAX};
ghost use Rattle.dg_text.specs.declared.limits.TheConstants.{NAMES_MAX};
ghost use Rattle.dg_history.specs.History.{are_parameters, empty_history, is_form, is_function, is_wide};
ghost use Rattle.dg_history.specs.Keys.{same_key};
ghost use Rattle.dg_index.specs.FileOfHistory.{file, head_of};
ghost use Rattle.dg_index.specs.ImageText.{eight_at};
ghost use Rattle.dg_index.specs.ImageOfHistory.{is_blank, IsImageOf};
ghost use Rattle.dg_index.specs.IndexGrowth.{AreInTurn, IsDue, columns_in, last_time_in, name_total, index_upgraded};
ghost use Rattle.dg_index.specs.IndexKeys.{AreKept};
ghost use Rattle.dg_index.specs.OpenedIndex.{column_at, bare, directory_of, earliest_in, event_total, first_in, keys_next, last_list, list_count, may_be_listed, may_follow, opened_of, opening, rows_in, span_in};
ghost use Rattle.dg_disk.specs.Image.{HasRange, IsLengthOf};
ghost use Rattle.dg_catalogue.specs.Additions.{bytes_of_rows, Suits};
ghost use Rattle.dg_catalogue.specs.Entries.{column_length_in};
ghost use Rattle.dg_catalogue.specs.Points.{ListsRise};
ghost use Rattle.dg_file.specs.Calls.{CommitsPart, CommitsSegment, IsOverLimit, LacksMarkerRoom, Upgrades, UpgradesPart};
ghost use Rattle.dg_segment.specs.Directories.{directory_due, FindsDirectory, TakesDirectory, are_marking};
ghost use Rattle.dg_file.specs.Headers.{IsOpenedSoFar, Misses, is_upgraded};
ghost use Rattle.dg_file.specs.Index.{HasSegmentRoom, opening_bytes};
ghost use Rattle.dg_file.specs.Images.{BothTold, Fits, GainsBatchOrNot, GainsUpgradeOrNot, IsMadeInPart, IsOpenedAs, RefusesOpening, taken_after};
ghost use Rattle.dg_file.specs.Invariant.{listed_after, with_rows};
ghost use Rattle.dg_file.specs.OpeningBytes.{StaysWithinOpening, TakesUpToOpening, blank_bytes};

use crate::append::{append, append_marker};
use crate::creation::write_header;
use crate::fault::{CommitFault, CreateFault, FetchFault, ReopenFault};
use crate::header::{HEADER_BYTES, OPEN};
use crate::prepared_segment::{PreparedSegment, Ready};
use crate::reads::{read_byte, read_header, read_lengths, read_range};
use dg_catalogue::{Catalogue, column_length, column_offset, keys_due, leaves};
use dg_disk::Disk;
use dg_graph::Column;
use dg_history::{Form, Key, Params};
use dg_index::{BatchEntry, Entry, Row};
use dg_names::Names;
use dg_numbers::{u32_at, u64_at};
use dg_segment::{
    DirectoryFault, FoundDirectory, LENGTHS_BYTES, Lengths, MARKER_BYTES, NAMES_OFFSET, Segment,
    are_unheard, batch_at, has_rows, is_measured, may_be_listed, may_follow, read_names, rows_in,
};
use dg_text::NAMES_MAX;
use std::alloc::{AllocError, Global};
use std::marker::Model;

/// The bytes of a marker and of the gate behind it.
const MARKER_SEGMENT_BYTES: u64 = 25;

/// The offset of the number of names in a directory.
const COUNT_OFFSET: usize = 24;

/// An index over the disk with which it was made or reopened. It tells what the disk's image is opened
/// as, and how many records and batches it may get without taking memory.
#[derive(Drop)]
pub struct Index {
    alloc: Global,
    params: Params,
    form: Form,
    catalogue: Catalogue,
    batches: Vec<BatchEntry>,
    // the events and the names of all batches
    events: u64,
    names: u32,
    // the earliest time that the next batch may begin with
    earliest: u64,
    // the last time of the last list
    listed: Option<u64>,
    // the offset behind the closed gate that ends the file
    used: u64,
}

impl Model for Index {
    ghost use Rattle.std.specs.Prelude.{◌-◌, vec_len};
    ghost use Rattle.std.specs.Vec.{vec_capacity};
    ghost use Rattle.dg_file.specs.Index.{IndexState};
    ghost use Rattle.dg_file.specs.Invariant.{IndexIsSound};

    ghost Value = { IndexState };

    ghost view = { λ x. record { opening = record { params = x.params; form = x.form; batches = x.batches.items; records = x.catalogue.entries; used = x.used }; spare = x.catalogue.spare; room = vec_capacity x.batches - vec_len x.batches } };

    ghost invariant = { λ x. IndexIsSound (record { params = x.params; form = x.form; batches = x.batches.items; records = x.catalogue.entries; used = x.used }) x.events x.names x.earliest x.listed x.catalogue.span };
}

// The last time of the last list among the rows, where without one it is this.
fn listed_after(listed: Option<u64>, rows: &[Row]) -> Option<u64>
    ensures { result ≡ listed_after listed rows.now }
{
    let mut last = listed;
    for row in rows {
        if let Some(ends) = row.ends {
            last = Some(ends.last);
        }
    }
    last
}

// The bytes of the front of a column that has so many, or fewer.
fn front_length(entry: &Entry, col: Column, most: u64) -> u64
    ensures { result ≡ min most (column_length_in entry.now col) }
{
    let all = column_length(entry, col);
    if most < all {
        return most;
    }
    all
}

impl Index {
    // An index without a segment. Takes no memory yet.
    fn empty(alloc: Global, form: Form, params: Params) -> Index
        requires { are_parameters params.l params.k ≡ true }
        ensures { result.opening ≡ (bare form params).index }
    {
        Index {
            alloc,
            params,
            form,
            catalogue: Catalogue::new(alloc),
            batches: Vec::new(alloc),
            events: 0,
            names: 0,
            earliest: 0,
            listed: None,
            used: HEADER_BYTES as u64,
        }
    }

    /// Whether the next segment is written in the second form.
    pub fn is_wide(&self) -> bool
        ensures { result ≡ is_wide self.now.opening.form }
    {
        match self.form {
            Form::One => false,
            Form::Upgraded(_) | Form::Two => true,
        }
    }

    // Makes room for so many more records and one more batch.
    fn reserve(&mut self, records: u64) -> Result<(), AllocError>
        ensures spare { OnOk result (records ≤ self.new.spare) }
        ensures room { OnOk result (1 ≤ self.new.room) }
        ensures same { self.new.opening ≡ self.old.opening }
    {
        self.catalogue.reserve(records)?;
        self.batches.reserve(1)
    }

    // The time before which the first list of the next batch, whose first time is given, may not begin.
    fn floor(&self, first: u64) -> u64
        ensures { result ≡ last_list (first_in first self.now.opening.batches) self.now.opening.records }
    {
        match self.listed {
            Some(last) => last,
            None => match self.batches.first() {
                Some(batch) => batch.ends.first,
                None => first,
            },
        }
    }

    // The lists that a batch of so many events gives.
    fn lists_next(&self, events: u64) -> u32
        requires { event_total self.now.opening.batches + events ≤ EVENTS_MAX }
        ensures { result ≡ list_count self.now.opening events }
    {
        leaves(self.params, self.events + events) - leaves(self.params, self.events)
    }

    // The records that a batch of so many events gives, in the order of the file.
    fn keys_next(&self, events: u64) -> Result<Vec<Key>, AllocError>
        requires { event_total self.now.opening.batches + events ≤ EVENTS_MAX }
        ensures keys { IfOk result (λ keys. keys.items ≡ keys_next self.now.opening events) }
    {
        let number = self.batches.len() as u32;
        keys_due(self.alloc, self.params, self.events, events, number)
    }

    // Notes a segment behind the bytes in use. There is room for it.
    fn note(&mut self, batch: BatchEntry, keys: &[Key], rows: &[Row], offset: u64, used: u64)
        requires spare { length keys.now ≤ self.old.spare }
        requires room { 1 ≤ self.old.room }
        requires keys { keys.now ≡ keys_next self.old.opening batch.events }
        requires rows { Suits keys.now rows.now }
        requires follows { may_follow (event_total self.old.opening.batches) (earliest_in 0 self.old.opening.batches) batch ≡ true }
        requires listed { may_be_listed (last_list (first_in batch.ends.first self.old.opening.batches) self.old.opening.records) batch.ends.last rows.now ≡ true }
        requires names { name_total self.old.opening.batches + batch.names ≤ NAMES_MAX }
        requires behind { self.old.opening.used ≤ offset }
        requires used { offset + bytes_of_rows rows.now + 1 ≡ used }
        requires within { used ≤ FILE_BYTES_MAX }
        ensures { self.new.opening ≡ with_rows self.old.opening batch rows.now offset used }
    {
        self.catalogue.add_all(keys, rows, offset);
        self.catalogue.add_batch(batch.ends);
        self.batches.push(batch).unwrap();
        self.events += batch.events;
        self.names += batch.names;
        self.earliest = batch.ends.last + 1;
        self.listed = listed_after(self.listed, rows);
        self.used = used;
    }

    // Notes the marker behind the bytes in use: the second form holds behind it.
    fn note_marker(&mut self)
        requires { self.old.opening.used + 25 ≤ FILE_BYTES_MAX }
        ensures marked { self.new.opening ≡ index_upgraded self.old.opening }
        ensures room { (self.new.spare ≡ self.old.spare) × (self.new.room ≡ self.old.room) }
    {
        self.form = Form::Upgraded(self.batches.len() as u32);
        self.used += MARKER_SEGMENT_BYTES;
    }

    // Reads the directory of a segment behind the bytes in use, with so many bytes of columns, and adds its
    // names to those before it. `DirectoryFault::Broken` where it may not stand there,
    // `DirectoryFault::Memory` for want of memory: then some of its names may be added.
    fn read_directory(
        &self,
        bytes: &[u8],
        columns: u64,
        names: &mut Names,
    ) -> Result<FoundDirectory, DirectoryFault>
        ensures taken { IfOk result (λ found. TakesDirectory self.now.opening columns bytes.now names.old names.new found) }
        ensures broken { IsErrOf result DirectoryFault.Broken → directory_due (record { index = self.now.opening; names = names.old }) columns bytes.now ≡ None }
    {
        if bytes.len() < NAMES_OFFSET {
            return Err(DirectoryFault::Broken);
        }
        let count = u32_at(bytes, COUNT_OFFSET);
        if NAMES_MAX - names.len() < count {
            return Err(DirectoryFault::Broken);
        }
        let end = read_names(bytes, count, names)?;
        let batch = batch_at(bytes, count);
        if !may_follow(batch, self.events, self.earliest) {
            return Err(DirectoryFault::Broken);
        }
        let lists = self.lists_next(batch.events);
        let keys = self.keys_next(batch.events)?;
        let deltas = keys.len() as u32 - lists - 1;
        let wide = self.is_wide();
        if !has_rows(bytes, wide, end, lists, deltas) {
            return Err(DirectoryFault::Broken);
        }
        let rows = rows_in(self.alloc, bytes, wide, end, lists, deltas)?;
        if !is_measured(&rows, columns) {
            return Err(DirectoryFault::Broken);
        }
        let floor = self.floor(batch.ends.first);
        if !may_be_listed(&rows[..lists as usize], floor, batch.ends.last) {
            return Err(DirectoryFault::Broken);
        }
        if !are_unheard(&rows, lists as usize, deltas as usize) {
            return Err(DirectoryFault::Broken);
        }
        Ok(FoundDirectory { batch, keys, rows })
    }

    /// Makes an index of this form, the first or the second, with these parameters and without a batch on a
    /// disk that has none. The gate of its header is opened once all else is on the device.
    /// `CreateFault::Memory` for want of memory, with nothing written; `CreateFault::Disk` where the disk
    /// failed.
    pub fn create<D: Disk>(
        alloc: Global,
        disk: &mut D,
        form: Form,
        params: Params,
    ) -> Result<Index, CreateFault>
        requires parameters { are_parameters params.l params.k ≡ true }
        requires function { is_function params.function ≡ true }
        requires form { is_form form params.function 0 ≡ true }
        requires first { is_upgraded form ≡ false }
        requires blank { IfSome (D.image disk.old) (λ image. is_blank image ≡ true) }
        ensures made { IfOk result (λ index. index.opening ≡ (opened_of (empty_history form params)).index) }
        ensures opened { OnOk result (IfSome (D.image disk.new) (λ image. opening image ≡ Ok (opened_of (empty_history form params)))) }
        ensures image { OnOk result (IfSome (D.image disk.new) (λ image. IsImageOf (empty_history form params) image)) }
        ensures exact { OnOk result (IfSome (D.image disk.new) (λ image. image ≡ file (empty_history form params) ++ 0 ∷ [])) }

        // errors
        ensures part { IsErrOf result CreateFault.Disk → BothTold (D.image disk.old) (D.image disk.new) (λ old new. IsMadeInPart form params old new) }
        ensures cause { IsErrOf result CreateFault.Disk → FailsToWrite D.Disk disk.old disk.new }
        ensures memory { IsErrOf result CreateFault.Memory → disk.new ≡ disk.old }

        // frame
        ensures frame { WritesDisk D.Disk disk.old disk.new }

        // crashes
        ensures settled { OnOk result (IsOnDevice D.Disk disk.new) }
        ensures crash { LeftByCrash D.Disk disk.old disk.new (IsMadeInPart form params) }
    {
        let mut index = Index::empty(alloc, form, params);
        index.reserve(1)?;
        write_header(disk, form, params)?;
        Ok(index)
    }

    /// Opens the index that the disk has, and fills `names` with the names of its batches. It reads the
    /// header, and each segment's lengths, directory and gate, each once, and no column.
    /// `ReopenFault::Blank` where there is no index, `ReopenFault::Foreign` where the file is not one of
    /// an index, `ReopenFault::Damaged` with the offset of the first segment that breaks a rule,
    /// `ReopenFault::Disk` where the disk failed, `ReopenFault::Memory` for want of memory. After a
    /// fault `names` may have some of the names, and no more bytes were read than the file has, nor than
    /// opening all of it reads. Of a blank file the 18 bytes of a header are read where it has as many, else
    /// none.
    pub fn reopen<D: Disk>(
        alloc: Global,
        disk: &mut D,
        names: &mut Names,
    ) -> Result<Index, ReopenFault>
        requires names { names.old ≡ [] }
        ensures opened { IfOk result (λ index. IfSome (D.image disk.old) (λ image. opening image ≡ Ok (record { index = index.opening; names = names.new }))) }
        ensures counted_names { IfOk result (λ index. length names.new ≡ name_total index.opening.batches) }
        ensures taken { IfOk result (λ index. D.taken disk.new ≡ raised_by (opening_bytes index.opening) (D.taken disk.old)) }

        // errors
        ensures refused { IfErr result (λ fault. IfSome (D.image disk.old) (λ image. RefusesOpening fault (opening image))) }
        ensures cause { IsErrOf result ReopenFault.Disk → Fails D.Disk disk.old disk.new }
        ensures bounded { OnErr result (IfSome (D.image disk.old) (λ image. D.taken disk.new ≤ D.taken disk.old + length image)) }
        ensures within { OnErr result (IfSome (D.image disk.old) (λ image. TakesUpToOpening image (D.taken disk.old) (D.taken disk.new))) }
        ensures blank { IsErrOf result ReopenFault.Blank → IfSome (D.image disk.old) (λ image. D.taken disk.new ≡ taken_after (blank_bytes image) (D.taken disk.old)) }

        // frame
        ensures frame { SyncsDisk D.Disk disk.old disk.new }

        // crashes
        ensures settled { OnOk result (IsOnDevice D.Disk disk.new) }
        ensures settled_blank { IsErrOf result ReopenFault.Blank → IsOnDevice D.Disk disk.new }
    {
        let found = read_header(disk)?;
        let mut index = Index::empty(alloc, found.form, found.params);
        index.read_segments(disk, found.len, found.gate, names)?;
        Ok(index)
    }

    // Reads the segments from the gate with this byte on, in an image of so many bytes or more.
    fn read_segments<D: Disk>(
        &mut self,
        disk: &mut D,
        len: u64,
        gate: u8,
        names: &mut Names,
    ) -> Result<(), ReopenFault>
        requires so_far { IfSome (D.image disk.old) (λ image. IsOpenedSoFar image self.old.opening names.old gate) }
        requires len { IsLengthOf (D.image disk.old) len }
        requires within { self.old.opening.used ≤ len }
        requires most { self.old.opening.used ≤ FILE_BYTES_MAX }
        requires counted_names { length names.old ≡ name_total self.old.opening.batches }
        ensures opened { OnOk result (IfSome (D.image disk.old) (λ image. opening image ≡ Ok (record { index = self.new.opening; names = names.new }))) }
        ensures counted_names { OnOk result (length names.new ≡ name_total self.new.opening.batches) }
        ensures taken { OnOk result ((t : ℕ) → D.taken disk.old ≡ raised_by (opening_bytes self.old.opening) t → D.taken disk.new ≡ raised_by (opening_bytes self.new.opening) t) }

        // errors
        ensures refused { IfErr result (λ fault. IfSome (D.image disk.old) (λ image. RefusesOpening fault (opening image))) }
        ensures cause { IsErrOf result ReopenFault.Disk → Fails D.Disk disk.old disk.new }
        ensures bounded { OnErr result (IfSome (D.image disk.old) (λ image. (t : ℕ) → D.taken disk.old ≡ raised_by (opening_bytes self.old.opening) t → D.taken disk.new ≤ t + length image)) }
        ensures stays { OnErr result (IfSome (D.image disk.old) (λ image. StaysWithinOpening image self.old.opening (D.taken disk.old) (D.taken disk.new))) }

        // frame
        ensures frame { ReadsDisk D.Disk disk.old disk.new }
    {
        let mut len = len;
        let mut gate = gate;
        while gate == OPEN {
            gate = self.read_next(disk, &mut len, names)?;
        }
        Ok(())
    }

    // Reads the directory of the segment behind the bytes in use, which begins with these lengths, and adds
    // its names to those before it.
    fn read_found<D: Disk>(
        &self,
        disk: &mut D,
        lengths: Lengths,
        names: &mut Names,
    ) -> Result<FoundDirectory, ReopenFault>
        requires { HasRange (D.image disk.old) (self.now.opening.used + 16) lengths.directory }
        ensures found { IfOk result (λ found. FindsDirectory (D.image disk.old) self.now.opening lengths names.old names.new found) }
        ensures taken { OnOk result (D.taken disk.new ≡ taken_after lengths.directory (D.taken disk.old)) }

        // errors
        ensures refused { IfErr result (λ fault. IfSome (D.image disk.old) (λ image. Misses self.now.opening.used (directory_due (record { index = self.now.opening; names = names.old }) lengths.columns (take lengths.directory (drop (self.now.opening.used + 16) image)) ≡ None) fault)) }
        ensures bounded { OnErr result (D.taken disk.new ≤ D.taken disk.old + lengths.directory) }
        ensures cause { IsErrOf result ReopenFault.Disk → Fails D.Disk disk.old disk.new }

        // frame
        ensures frame { ReadsDisk D.Disk disk.old disk.new }
    {
        let offset = self.used;
        let text = read_range(
            self.alloc,
            disk,
            offset + LENGTHS_BYTES as u64,
            lengths.directory,
        )?;
        let found = match self.read_directory(&text, lengths.columns, names) {
            Ok(found) => found,
            Err(DirectoryFault::Broken) => return Err(ReopenFault::Damaged(offset)),
            Err(DirectoryFault::Memory) => return Err(ReopenFault::Memory),
        };
        Ok(found)
    }

    // Reads the segment behind the bytes in use, whose gate is open. Answers the byte of the gate
    // behind it.
    fn read_next<D: Disk>(
        &mut self,
        disk: &mut D,
        len: &mut u64,
        names: &mut Names,
    ) -> Result<u8, ReopenFault>
        requires so_far { IfSome (D.image disk.old) (λ image. IsOpenedSoFar image self.old.opening names.old 1) }
        requires len { IsLengthOf (D.image disk.old) len.old }
        requires within { self.old.opening.used ≤ len.old }
        requires counted_names { length names.old ≡ name_total self.old.opening.batches }
        ensures so_far { IfOk result (λ gate. IfSome (D.image disk.old) (λ image. IsOpenedSoFar image self.new.opening names.new gate)) }
        ensures len { IsLengthOf (D.image disk.old) len.new }
        ensures within { OnOk result (self.new.opening.used ≤ len.new) }
        ensures most { OnOk result (self.new.opening.used ≤ FILE_BYTES_MAX) }
        ensures progress { OnOk result (self.old.opening.used < self.new.opening.used) }
        ensures counted_names { OnOk result (length names.new ≡ name_total self.new.opening.batches) }
        ensures taken { OnOk result ((t : ℕ) → D.taken disk.old ≡ raised_by (opening_bytes self.old.opening) t → D.taken disk.new ≡ raised_by (opening_bytes self.new.opening) t) }

        // errors
        ensures refused { IfErr result (λ fault. IfSome (D.image disk.old) (λ image. RefusesOpening fault (opening image))) }
        ensures cause { IsErrOf result ReopenFault.Disk → Fails D.Disk disk.old disk.new }
        ensures bounded { OnErr result ((t : ℕ) → D.taken disk.old ≡ raised_by (opening_bytes self.old.opening) t → D.taken disk.new ≤ t + len.new) }
        ensures stays { OnErr result (IfSome (D.image disk.old) (λ image. StaysWithinOpening image self.old.opening (D.taken disk.old) (D.taken disk.new))) }

        // frame
        ensures frame { ReadsDisk D.Disk disk.old disk.new }
    {
        let offset = self.used;
        let lengths = read_lengths(disk, offset, len)?;
        if self.may_be_marked(lengths) {
            return self.read_marker(disk);
        }
        let found = self.read_found(disk, lengths, names)?;
        let columns_offset = offset + LENGTHS_BYTES as u64 + lengths.directory;
        let gate_offset = columns_offset + lengths.columns;
        let gate = read_byte(disk, gate_offset)?;
        self.reserve(found.keys.len() as u64)?;
        self.note(
            found.batch,
            &found.keys,
            &found.rows,
            columns_offset,
            gate_offset + 1,
        );
        Ok(gate)
    }

    // Whether these are the lengths of a marker that may stand behind the bytes in use.
    fn may_be_marked(&self, lengths: Lengths) -> bool
        ensures { result ≡ (not (is_wide self.now.opening.form) && are_marking lengths) }
    {
        !self.is_wide() && lengths.are_marking()
    }

    // Reads the marker behind the bytes in use, whose lengths are read: the second form holds behind it.
    // `ReopenFault::Damaged` where its number of events is not 0. Answers the byte of the gate behind it.
    fn read_marker<D: Disk>(&mut self, disk: &mut D) -> Result<u8, ReopenFault>
        requires narrow { is_wide self.old.opening.form ≡ false }
        requires there { HasRange (D.image disk.old) (self.old.opening.used + 16) 9 }
        requires within { self.old.opening.used + 25 ≤ FILE_BYTES_MAX }
        ensures upgraded { OnOk result (self.new.opening ≡ index_upgraded self.old.opening) }
        ensures zero { OnOk result (IfSome (D.image disk.old) (λ image. eight_at image (self.old.opening.used + 16) ≡ 0)) }
        ensures gate { IfOk result (λ gate. IfSome (D.image disk.old) (λ image. gate ≡ slice_index image (self.old.opening.used + 24))) }
        ensures taken { OnOk result (D.taken disk.new ≡ raised_by 9 (D.taken disk.old)) }

        // errors
        ensures refused { IfErr result (λ fault. IfSome (D.image disk.old) (λ image. Misses self.old.opening.used (eight_at image (self.old.opening.used + 16) ≢ 0) fault)) }
        ensures bounded { OnErr result (D.taken disk.new ≤ D.taken disk.old + 8) }
        ensures cause { IsErrOf result ReopenFault.Disk → Fails D.Disk disk.old disk.new }

        // frame
        ensures frame { ReadsDisk D.Disk disk.old disk.new }
    {
        let events_offset = self.used + LENGTHS_BYTES as u64;
        let mut events = [0; MARKER_BYTES as usize];
        disk.read_at(events_offset, &mut events)?;
        if u64_at(&events, 0) != 0 {
            return Err(ReopenFault::Damaged(self.used));
        }
        let gate = read_byte(disk, events_offset + MARKER_BYTES)?;
        self.note_marker();
        Ok(gate)
    }

    /// Reads a column of a record that the index keeps. `FetchFault::Disk` where the disk failed,
    /// `FetchFault::Memory` for want of memory.
    pub fn fetch<D: Disk>(&self, disk: &mut D, key: Key, col: Column) -> Result<Vec<u8>, FetchFault>
        requires held { is_some (lookup (same_key key) self.now.opening.records) ≡ true }
        requires image { IfSome (D.image disk.old) (λ image. IsOpenedAs image self.now.opening) }
        ensures bytes { IfOk result (λ bytes. IfSome (D.image disk.old) (λ image. IfSome (lookup (same_key key) self.now.opening.records) (λ e. bytes.items ≡ column_at image e col))) }
        ensures taken { IfOk result (λ bytes. D.taken disk.new ≡ taken_after (length bytes.items) (D.taken disk.old)) }

        // errors
        ensures cause { IsErrOf result FetchFault.Disk → Fails D.Disk disk.old disk.new }
        ensures none_taken { OnErr result (D.taken disk.new ≡ D.taken disk.old) }

        // frame
        ensures frame { ReadsDisk D.Disk disk.old disk.new }
    {
        let entry = self.catalogue.entry(key).unwrap();
        let len = column_length(&entry, col);
        read_range(self.alloc, disk, column_offset(&entry, col), len)
    }

    /// Reads the first bytes of a column of a record that the index keeps: `most`, or all where it has no more.
    /// `FetchFault::Disk` where the disk failed, `FetchFault::Memory` for want of memory.
    pub fn fetch_front<D: Disk>(
        &self,
        disk: &mut D,
        key: Key,
        col: Column,
        most: u64,
    ) -> Result<Vec<u8>, FetchFault>
        requires held { is_some (lookup (same_key key) self.now.opening.records) ≡ true }
        requires image { IfSome (D.image disk.old) (λ image. IsOpenedAs image self.now.opening) }
        ensures bytes { IfOk result (λ bytes. IfSome (D.image disk.old) (λ image. IfSome (lookup (same_key key) self.now.opening.records) (λ e. bytes.items ≡ take most (column_at image e col)))) }
        ensures taken { IfOk result (λ bytes. D.taken disk.new ≡ taken_after (length bytes.items) (D.taken disk.old)) }

        // errors
        ensures cause { IsErrOf result FetchFault.Disk → Fails D.Disk disk.old disk.new }
        ensures none_taken { OnErr result (D.taken disk.new ≡ D.taken disk.old) }

        // frame
        ensures frame { ReadsDisk D.Disk disk.old disk.new }
    {
        let entry = self.catalogue.entry(key).unwrap();
        let len = front_length(&entry, col, most);
        read_range(self.alloc, disk, column_offset(&entry, col), len)
    }

    /// Makes all of the segment ready to be written behind the index, so that `commit` takes no memory.
    /// `AllocError` for want of memory.
    pub fn prepare(&mut self, segment: Segment) -> Result<PreparedSegment, AllocError>
        requires due { IsDue self.old.opening segment }
        ensures prepared { IfOk result (λ p. p.segment ≡ segment) }
        ensures room { IfOk result (λ p. HasSegmentRoom self.new p) }
        ensures same { self.new.opening ≡ self.old.opening }
    {
        let ready = self.ready(&segment)?;
        Ok(PreparedSegment::new(segment, self.is_wide(), ready))
    }

    // Makes ready what goes with the segment, and room for its records and its batch.
    fn ready(&mut self, segment: &Segment) -> Result<Ready, AllocError>
        requires due { IsDue self.old.opening segment.now }
        ensures keys { IfOk result (λ r. r.keys.items ≡ keys_next self.new.opening segment.now.events) }
        ensures rows { IfOk result (λ r. r.rows.items ≡ rows_in (directory_of segment.now)) }
        ensures head { IfOk result (λ r. r.head.items ≡ head_of (is_wide self.new.opening.form) segment.now) }
        ensures spare { IfOk result (λ r. length r.keys.items ≤ self.new.spare) }
        ensures room { OnOk result (1 ≤ self.new.room) }
        ensures same { self.new.opening ≡ self.old.opening }
    {
        let keys = self.keys_next(segment.batch().events)?;
        self.reserve(keys.len() as u64)?;
        Ready::new(self.alloc, segment, self.is_wide(), keys)
    }

    /// Adds the segment of a batch to the file, which may have `limit` bytes in use. The segment's gate
    /// is opened once all else is on the device. `CommitFault::FileFull` with the bytes that would be in
    /// use, exactly where they are more than `limit`: then nothing has changed. `CommitFault::Disk`
    /// where the disk failed; then the file has the old or the new history, and the index is used no
    /// more. Takes no memory.
    pub fn commit<D: Disk>(
        &mut self,
        disk: &mut D,
        prepared: PreparedSegment,
        limit: u64,
    ) -> Result<(), CommitFault>
        requires room { HasSegmentRoom self.old prepared }
        requires limit { limit ≤ FILE_BYTES_MAX }
        requires due { IsDue self.old.opening prepared.segment }
        requires image { IfSome (D.image disk.old) (λ image. Fits image self.old.opening prepared.segment) }
        ensures done { OnOk result (CommitsSegment D.Disk limit self.old.opening prepared.segment self.new.opening disk.old disk.new) }

        // errors
        ensures full { (n : ℕ) → result ≡ Err (CommitFault.FileFull n) → IsOverLimit limit self.old prepared.segment self.new disk.old disk.new n }
        ensures part { IsErrOf result CommitFault.Disk → CommitsPart D.Disk limit self.old.opening prepared.segment disk.old disk.new }

        // what it leaves, and what a crash leaves
        ensures frame { WritesDisk D.Disk disk.old disk.new }
        ensures crash { LeftByCrash D.Disk disk.old disk.new (GainsBatchOrNot prepared.segment) }
    {
        self.add(disk, &prepared, limit)
    }

    // Adds the segment to the file and to the index, as `commit` says.
    fn add<D: Disk>(
        &mut self,
        disk: &mut D,
        prepared: &PreparedSegment,
        limit: u64,
    ) -> Result<(), CommitFault>
        requires room { HasSegmentRoom self.old prepared.now }
        requires limit { limit ≤ FILE_BYTES_MAX }
        requires due { IsDue self.old.opening prepared.now.segment }
        requires image { IfSome (D.image disk.old) (λ image. Fits image self.old.opening prepared.now.segment) }
        ensures done { OnOk result (CommitsSegment D.Disk limit self.old.opening prepared.now.segment self.new.opening disk.old disk.new) }

        // errors
        ensures full { (n : ℕ) → result ≡ Err (CommitFault.FileFull n) → IsOverLimit limit self.old prepared.now.segment self.new disk.old disk.new n }
        ensures part { IsErrOf result CommitFault.Disk → CommitsPart D.Disk limit self.old.opening prepared.now.segment disk.old disk.new }

        // what it leaves, and what a crash leaves
        ensures frame { WritesDisk D.Disk disk.old disk.new }
        ensures crash { LeftByCrash D.Disk disk.old disk.new (GainsBatchOrNot prepared.now.segment) }
    {
        let used = self.used;
        let segment = prepared.segment();
        let needed = used + segment.size(self.is_wide());
        if limit < needed {
            return Err(CommitFault::FileFull(needed));
        }
        let head = prepared.head();
        append(disk, used, head, segment)?;
        let offset = used + head.len() as u64;
        self.note(
            segment.batch(),
            prepared.keys(),
            prepared.rows(),
            offset,
            needed,
        );
        Ok(())
    }

    /// Writes the marker behind which the file goes on in the second form, in a file that may have `limit`
    /// bytes in use. Its gate is opened once it is on the device. `CommitFault::FileFull` with the bytes that
    /// would be in use, exactly where they are more than `limit`: then nothing has changed.
    /// `CommitFault::Disk` where the disk failed; then the file is of the old or of the upgraded history,
    /// and the index is used no more. Takes no memory.
    pub fn upgrade<D: Disk>(&mut self, disk: &mut D, limit: u64) -> Result<(), CommitFault>
        requires narrow { is_wide self.old.opening.form ≡ false }
        requires limit { limit ≤ FILE_BYTES_MAX }
        requires image { IfSome (D.image disk.old) (λ image. IsOpenedAs image self.old.opening) }
        ensures done { OnOk result (Upgrades D.Disk limit self.old.opening self.new.opening disk.old disk.new) }
        ensures room { (self.new.spare ≡ self.old.spare) × (self.new.room ≡ self.old.room) }

        // errors
        ensures full { (n : ℕ) → result ≡ Err (CommitFault.FileFull n) → LacksMarkerRoom limit self.old self.new disk.old disk.new n }
        ensures part { IsErrOf result CommitFault.Disk → UpgradesPart D.Disk limit self.old.opening disk.old disk.new }

        // what it leaves, and what a crash leaves
        ensures frame { WritesDisk D.Disk disk.old disk.new }
        ensures crash { LeftByCrash D.Disk disk.old disk.new GainsUpgradeOrNot }
    {
        let used = self.used;
        let needed = used + MARKER_SEGMENT_BYTES;
        if limit < needed {
            return Err(CommitFault::FileFull(needed));
        }
        append_marker(disk, used)?;
        self.note_marker();
        Ok(())
    }

    /// What the index keeps of a record, or `None` where it keeps none at the key. One look-up by hash.
    pub fn entry(&self, key: Key) -> Option<Entry>
        ensures { result ≡ lookup (same_key key) self.now.opening.records }
    {
        self.catalogue.entry(key)
    }

    /// What the index keeps of each record, and the first and the last instant of its batches. The
    /// numbers of the lists go from 0 on, none ends before it begins, and none begins before an earlier
    /// one ends.
    pub fn catalogue(&self) -> &Catalogue
        ensures entries { result.now.entries ≡ self.now.opening.records }
        ensures span { result.now.span ≡ span_in self.now.opening.batches }
        ensures rise { ListsRise result.now }
    {
        // Its clauses tell that a list has instants.
        self.catalogue.facts();
        &self.catalogue
    }

    /// The parameters with which the index was made.
    pub fn params(&self) -> Params
        ensures { result ≡ self.now.opening.params }
    {
        self.params
    }

    /// The form of the file.
    pub fn form(&self) -> Form
        ensures { result ≡ self.now.opening.form }
    {
        self.form
    }

    /// The bytes in use, up to the closed gate and with it.
    pub fn used(&self) -> u64
        ensures { result ≡ self.now.opening.used }
    {
        self.used
    }

    /// How many events all batches have.
    pub fn events_len(&self) -> u64
        ensures events { result ≡ event_total self.now.opening.batches }
        ensures few { result ≤ EVENTS_MAX }
    {
        self.events
    }

    /// How many names all batches bring.
    pub fn names_len(&self) -> u32
        ensures names { result ≡ name_total self.now.opening.batches }
        ensures few { result ≤ NAMES_MAX }
    {
        self.names
    }

    /// The batch of this number, from 0, or `None` where there is no such batch.
    pub fn batch(&self, number: u32) -> Option<BatchEntry>
        ensures { result ≡ slice_get self.now.opening.batches number }
    {
        self.batches.get(number as usize).copied()
    }

    /// The last instant of the last batch, or `None` where there is no batch.
    pub fn last_time(&self) -> Option<u64>
        ensures { result ≡ last_time_in self.now.opening.batches }
    {
        Some(self.batches.last()?.ends.last)
    }

    /// The last instant of the last closed list, or 0 where there is none.
    pub fn last_list(&self) -> u64
        ensures { result ≡ last_list 0 self.now.opening.records }
    {
        self.listed.unwrap_or(0)
    }

    /// What holds of each index. Does nothing.
    pub fn facts(&self)
        ensures parameters { are_parameters self.now.opening.params.l self.now.opening.params.k ≡ true }
        ensures begun { 18 ≤ self.now.opening.used }
        ensures within { self.now.opening.used ≤ FILE_BYTES_MAX }
        ensures in_turn { AreInTurn 0 0 self.now.opening.batches }
        ensures events { event_total self.now.opening.batches ≤ EVENTS_MAX }
        ensures few { length self.now.opening.batches ≤ event_total self.now.opening.batches }
        ensures earliest { earliest_in 0 self.now.opening.batches ≤ TIME_MAX + 1 }
        ensures names { name_total self.now.opening.batches ≤ NAMES_MAX }
        ensures listed { last_list 0 self.now.opening.records ≤ earliest_in 0 self.now.opening.batches }
        ensures kept { AreKept self.now.opening }
        ensures columns { columns_in self.now.opening.records ≤ self.now.opening.used }
    {
        let _ = &self.used;
    }
}
