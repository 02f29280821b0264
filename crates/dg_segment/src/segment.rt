//! A batch as its segment is to be written: names, lists, deltas and piece.
ghost use Rattle.std.specs.Prelude.{◌≡◌, ◌+◌, ◌-◌, ◌<◌, ◌≤◌, ◌^◌, ◌∷◌, ◌++◌, ◌↔◌, [], length, map, min, IfOk, IsTrue, OnOk, OnErr, ◌*◌, true};
ghost use Rattle.dg_text.specs.declared.limits.TheConstants.{NAME_BYTES_MAX};
ghost use Rattle.dg_index.specs.FileOfHistory.{blobs, bytes_of, delta_blobs, directory, head_of, lent, list_blobs, segment_bytes};
ghost use Rattle.dg_index.specs.OpenedIndex.{AreUnheard, directory_of, lengths_of, lengths_size, list_row, list_size, record_row, total};
ghost use Rattle.dg_segment.specs.DirectoryParts.{batch_text, records_text};

use crate::piece::Piece;
use crate::records::Records;
use crate::{NAME_LENGTH_BYTES, NewNames, put_count, put_number, put_row, put_table};
use dg_index::{BatchEntry, Ends, PerColumn, Row};
use std::alloc::{AllocError, Global};
use std::marker::Model;

/// The bytes of a segment with its next gate, and one more than it may have: 2^63.
const SEGMENT_BYTES_END: u64 = 9_223_372_036_854_775_808;

/// The bytes of the two lengths in front of a directory.
const LENGTHS_BYTES: u64 = 16;

/// The bytes of a directory without names, lists, deltas and the piece.
const DIRECTORY_BYTES: u64 = 36;

/// The bytes of a list in a directory of the second form: two instants and four lengths.
const LIST_BYTES: u64 = 48;

/// The bytes of a delta in a directory of the second form: four lengths.
const DELTA_BYTES: u64 = 32;

/// A batch as its segment is to be written.
#[derive(Drop)]
pub struct Segment {
    events: u64,
    first: u64,
    last: u64,
    names: NewNames,
    lists: Records,
    deltas: Records,
    piece: Piece,
}

impl Model for Segment {
    ghost use Rattle.dg_index.specs.FileOfHistory.{Segment};

    ghost Value = { Segment };

    ghost use Rattle.dg_segment.specs.SegmentParts.{IsSoundSegment, segment_in};

    ghost view = { segment_in };

    ghost invariant = { IsSoundSegment };
}

impl Segment {
    /// A batch of so many events, with the instants of its first and of its last one, without a name, a
    /// list or a delta, and with an empty piece. Takes no memory.
    pub fn new(alloc: Global, events: u64, first: u64, last: u64) -> Segment
        ensures { result ≡ record { events = events; first = first; last = last; names = []; lists = []; deltas = []; piece = record { structure = []; node_attrs = []; edge_attrs = []; transient = [] } } }
    {
        Segment {
            events,
            first,
            last,
            names: NewNames::new(alloc),
            lists: Records::new(alloc),
            deltas: Records::new(alloc),
            piece: Piece::new(alloc),
        }
    }

    /// Gives the batch one more new name. `AllocError`, and the batch is as it was, for want of memory,
    /// where it has 2^32 - 1 names, and where the segment with its next gate would have 2^63 bytes or
    /// more in the second form.
    pub fn add_name(&mut self, text: &[u8]) -> Result<(), AllocError>
        requires { length text.now ≤ NAME_BYTES_MAX }
        ensures ok { OnOk result (self.new ≡ record self.old { names = self.old.names ++ text.now ∷ [] }) }
        ensures err { OnErr result (self.new ≡ self.old) }
    {
        if !self.fits((NAME_LENGTH_BYTES + text.len()) as u64) {
            return Err(AllocError);
        }
        self.names.push(text)?;
        Ok(())
    }

    /// Gives the batch one more closed list, with the instants of its first and of its last event, and the
    /// columns of its events. `AllocError`, and the batch is as it was, for want of memory, where it has
    /// 2^32 - 1 lists, and where the segment with its next gate would have 2^63 bytes or more
    /// in the second form.
    pub fn add_list(
        &mut self,
        first: u64,
        last: u64,
        columns: PerColumn<&[u8]>,
    ) -> Result<(), AllocError>
        ensures ok { OnOk result (self.new ≡ record self.old { lists = self.old.lists ++ record { first = first; last = last; columns = lent columns.entry } ∷ [] }) }
        ensures err { OnErr result (self.new ≡ self.old) }
    {
        if !self.fits(record_size(LIST_BYTES, columns)) {
            return Err(AllocError);
        }
        let ends = Ends { first, last };
        self.lists.push(Some(ends), columns)?;
        Ok(())
    }

    /// Gives the batch one more delta of an interior node, by its columns. `AllocError`, and the batch is
    /// as it was, for want of memory, where it has 2^32 - 1 deltas, and where the segment with its next
    /// gate would have 2^63 bytes or more in the second form. No delta has messages.
    pub fn add_delta(
        &mut self,
        structure: &[u8],
        node_attrs: &[u8],
        edge_attrs: &[u8],
    ) -> Result<(), AllocError>
        ensures ok { OnOk result (self.new ≡ record self.old { deltas = self.old.deltas ++ record { structure = structure.now; node_attrs = node_attrs.now; edge_attrs = edge_attrs.now; transient = [] } ∷ [] }) }
        ensures err { OnErr result (self.new ≡ self.old) }
    {
        let columns = PerColumn {
            structure,
            node_attrs,
            edge_attrs,
            transient: &[],
        };
        if !self.fits(record_size(DELTA_BYTES, columns)) {
            return Err(AllocError);
        }
        self.deltas.push(None, columns)?;
        Ok(())
    }

    /// Gives the batch its piece, whose columns hold the events after its last closed list, in the place
    /// of the piece that it has. `AllocError`, and the batch is as it was, for want of memory, and where
    /// the segment with its next gate would have 2^63 bytes or more in the second form.
    pub fn set_piece(&mut self, columns: PerColumn<&[u8]>) -> Result<(), AllocError>
        ensures ok { OnOk result (self.new ≡ record self.old { piece = lent columns.entry }) }
        ensures err { OnErr result (self.new ≡ self.old) }
    {
        let others = self.size(true) - self.piece.columns().len() as u64;
        let piece = record_size(0, columns);
        if SEGMENT_BYTES_END - others <= piece {
            return Err(AllocError);
        }
        self.piece.set(columns)?;
        Ok(())
    }

    /// What an index keeps of the batch.
    pub fn batch(&self) -> BatchEntry
        ensures { result ≡ (directory_of self.now).batch }
    {
        let ends = Ends {
            first: self.first,
            last: self.last,
        };
        BatchEntry {
            events: self.events,
            ends,
            names: self.names.count(),
        }
    }

    /// What the directory tells of each list.
    pub fn list_rows(&self) -> &[Row]
        ensures { result.now ≡ map list_row self.now.lists }
    {
        self.lists.rows()
    }

    /// What the directory tells of each delta.
    pub fn delta_rows(&self) -> &[Row]
        ensures { result.now ≡ map record_row self.now.deltas }
    {
        self.deltas.rows()
    }

    /// What the directory tells of the piece.
    pub fn piece_row(&self) -> Row
        ensures { result ≡ record_row self.now.piece }
    {
        self.piece.row()
    }

    /// No delta has messages. Does nothing.
    pub fn facts(&self)
        ensures { AreUnheard self.now.deltas }
    {
        let _ = &self.deltas;
    }

    /// The columns of the lists, one record behind another.
    pub fn list_columns(&self) -> &[u8]
        ensures { result.now ≡ list_blobs self.now.lists }
    {
        self.lists.columns()
    }

    /// The columns of the deltas, one record behind another.
    pub fn delta_columns(&self) -> &[u8]
        ensures { result.now ≡ delta_blobs self.now.deltas }
    {
        self.deltas.columns()
    }

    /// The columns of the piece.
    pub fn piece_columns(&self) -> &[u8]
        ensures { result.now ≡ bytes_of self.now.piece }
    {
        self.piece.columns()
    }

    /// The segment in front of its columns: its two lengths, and its directory, in the second form or in the
    /// first. `AllocError` for want of memory.
    pub fn head(&self, alloc: Global, wide: bool) -> Result<Vec<u8>, AllocError>
        ensures { IfOk result (λ head. head.items ≡ head_of wide self.now) }
    {
        let size = self.directory_size(wide);
        let mut head = Vec::with_capacity(alloc, (LENGTHS_BYTES + size) as usize)?;
        put_number(size, &mut head)?;
        put_number(self.columns_size(), &mut head)?;
        self.put_batch(&mut head)?;
        self.put_records(wide, &mut head)?;
        Ok(head)
    }

    /// The bytes of the segment, in the second form or in the first, and of the gate behind it.
    pub fn size(&self, wide: bool) -> u64
        ensures size { result ≡ length (segment_bytes wide self.now) + 1 }
        ensures small { result < 2 ^ 63 }
    {
        LENGTHS_BYTES + self.directory_size(wide) + self.columns_size() + 1
    }

    // Whether the segment with its next gate, and so many bytes more, has less than 2^63 bytes in the second
    // form, in which it has more than in the first.
    fn fits(&self, more: u64) -> bool
        ensures { IsTrue result ↔ length (segment_bytes true self.now) + 1 + more < 2 ^ 63 }
    {
        more < SEGMENT_BYTES_END - self.size(true)
    }

    // The bytes of the directory.
    fn directory_size(&self, wide: bool) -> u64
        ensures size { result ≡ length (directory wide self.now) }
        ensures small { result + length (blobs self.now) + 17 < 2 ^ 63 }
    {
        let lists = self.lists.rows().len() as u64;
        let deltas = self.deltas.rows().len() as u64;
        DIRECTORY_BYTES + self.names.bytes().len() as u64 + rows_size(wide, lists, deltas)
    }

    // The bytes of the columns of all records.
    fn columns_size(&self) -> u64
        ensures { result ≡ length (blobs self.now) }
    {
        let lists = self.lists.columns().len() as u64;
        let deltas = self.deltas.columns().len() as u64;
        lists + deltas + self.piece.columns().len() as u64
    }

    // Puts the directory up to its names.
    fn put_batch(&self, into: &mut Vec<u8>) -> Result<(), AllocError>
        ensures { OnOk result (into.new.items ≡ into.old.items ++ batch_text self.now) }
    {
        put_number(self.events, into)?;
        put_number(self.first, into)?;
        put_number(self.last, into)?;
        put_count(self.names.count(), into)?;
        into.extend_from_slice(self.names.bytes())?;
        Ok(())
    }

    // Puts the directory behind its names.
    fn put_records(&self, wide: bool, into: &mut Vec<u8>) -> Result<(), AllocError>
        ensures { OnOk result (into.new.items ≡ into.old.items ++ records_text wide self.now) }
    {
        put_table(self.lists.rows(), wide, into)?;
        put_table(self.deltas.rows(), wide, into)?;
        put_row(self.piece.row(), wide, into)?;
        Ok(())
    }
}

// The bytes of a record's row and of its columns, or 2^64 - 1 where that is less.
fn record_size(row: u64, columns: PerColumn<&[u8]>) -> u64
    ensures { result ≡ min (row + total (lengths_of (lent columns.entry))) (2 ^ 64 - 1) }
{
    row.saturating_add(columns.structure.len() as u64)
        .saturating_add(columns.node_attrs.len() as u64)
        .saturating_add(columns.edge_attrs.len() as u64)
        .saturating_add(columns.transient.len() as u64)
}

// The bytes in a directory of so many lists, so many deltas and the piece.
fn rows_size(wide: bool, lists: u64, deltas: u64) -> u64
    requires lists { lists < 2 ^ 32 }
    requires deltas { deltas < 2 ^ 32 }
    ensures size { result ≡ list_size wide * lists + lengths_size wide * deltas + lengths_size wide }
    ensures small { result < 2 ^ 40 }
{
    if wide {
        48 * lists + 32 * deltas + 32
    } else {
        40 * lists + 24 * deltas + 24
    }
}
