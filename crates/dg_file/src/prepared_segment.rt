//! A segment of which all is ready to be written.

ghost use Rattle.std.specs.Prelude.{◌≡◌, IfOk};
ghost use Rattle.dg_index.specs.FileOfHistory.{head_of};
ghost use Rattle.dg_index.specs.OpenedIndex.{directory_of, rows_in};

use dg_history::Key;
use dg_index::Row;
use dg_segment::Segment;
use std::alloc::{AllocError, Global};
use std::marker::Model;

/// A segment of which all is ready to be written, and the keys of its records in the order of the file.
#[derive(Drop)]
pub struct PreparedSegment {
    segment: Segment,
    // in which form it is to be written
    wide: bool,
    ready: Ready,
}

/// What is made ready to go with a segment.
#[derive(Drop)]
pub(crate) struct Ready {
    // the keys of its records
    pub keys: Vec<Key>,
    // a row for each of them
    pub rows: Vec<Row>,
    // what stands in front of its columns
    pub head: Vec<u8>,
}

impl Model for PreparedSegment {
    ghost use Rattle.std.specs.Prelude.{◌≡◌};
    ghost use Rattle.dg_index.specs.FileOfHistory.{head_of};
    ghost use Rattle.dg_index.specs.OpenedIndex.{directory_of, rows_in};
    ghost use Rattle.dg_file.specs.Index.{Prepared};

    ghost Value = { Prepared };

    ghost view = { λ p. record { segment = p.segment; wide = p.wide; keys = p.ready.keys.items } };

    ghost invariant = { λ p. (p.ready.rows.items ≡ rows_in (directory_of p.segment)) × (p.ready.head.items ≡ head_of p.wide p.segment) };
}

// A row for each record of the segment, in the order of the file.
fn rows_of(alloc: Global, segment: &Segment) -> Result<Vec<Row>, AllocError>
    ensures { IfOk result (λ rows. rows.items ≡ rows_in (directory_of segment.now)) }
{
    let mut rows = Vec::from_slice(alloc, segment.list_rows())?;
    rows.extend_from_slice(segment.delta_rows())?;
    rows.push(segment.piece_row())?;
    Ok(rows)
}

impl Ready {
    /// What goes with a segment, with these keys. `AllocError` for want of memory.
    pub(crate) fn new(
        alloc: Global,
        segment: &Segment,
        wide: bool,
        keys: Vec<Key>,
    ) -> Result<Ready, AllocError>
        ensures keys { IfOk result (λ r. r.keys ≡ keys) }
        ensures rows { IfOk result (λ r. r.rows.items ≡ rows_in (directory_of segment.now)) }
        ensures head { IfOk result (λ r. r.head.items ≡ head_of wide segment.now) }
    {
        let rows = rows_of(alloc, segment)?;
        let head = segment.head(alloc, wide)?;
        Ok(Ready { keys, rows, head })
    }
}

impl PreparedSegment {
    /// The segment with what was made ready to go with it.
    pub(crate) fn new(segment: Segment, wide: bool, ready: Ready) -> PreparedSegment
        requires rows { ready.rows.items ≡ rows_in (directory_of segment) }
        requires head { ready.head.items ≡ head_of wide segment }
        ensures { result ≡ record { segment = segment; wide = wide; keys = ready.keys.items } }
    {
        PreparedSegment {
            segment,
            wide,
            ready,
        }
    }

    /// The segment.
    pub(crate) fn segment(&self) -> &Segment
        ensures { result.now ≡ self.now.segment }
    {
        &self.segment
    }

    /// The keys of its records.
    pub(crate) fn keys(&self) -> &[Key]
        ensures { result.now ≡ self.now.keys }
    {
        &self.ready.keys
    }

    /// A row for each of its records.
    pub(crate) fn rows(&self) -> &[Row]
        ensures { result.now ≡ rows_in (directory_of self.now.segment) }
    {
        &self.ready.rows
    }

    /// What stands in front of its columns.
    pub(crate) fn head(&self) -> &[u8]
        ensures { result.now ≡ head_of self.now.wide self.now.segment }
    {
        &self.ready.head
    }
}
