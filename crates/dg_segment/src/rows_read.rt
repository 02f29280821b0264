//! The rows of a directory: one for each list, for each delta and for the piece.

ghost use Rattle.std.specs.Prelude.{◌≡◌, ◌≤◌, ◌+◌, ◌*◌, ◌++◌, ◌∷◌, [], ◌==◌, ◌&&◌, drop, length, take, IfOk, OnOk};
ghost use Rattle.dg_index.specs.ImageText.{four_at};
ghost use Rattle.dg_index.specs.OpenedIndex.{lengths_at, list_at, record_at, rows_at, may_be_listed, are_unheard, lengths_size, list_size};
ghost use Rattle.dg_catalogue.specs.Additions.{bytes_of_rows};
ghost use Rattle.dg_segment.specs.RowKinds.{row_at, row_size};

use dg_index::{Ends, PerColumn, Row};
use dg_numbers::{u32_at, u64_at};
use std::alloc::{AllocError, Global};

// What a row tells of: a list, which has instants, or another record.
#[derive(Clone, Copy)]
enum RowKind {
    List,
    Other,
}

// The bytes of a row.
fn row_size(kind: RowKind, wide: bool) -> usize
    ensures size { result ≡ row_size kind wide }
    ensures small { result ≤ 48 }
{
    match (kind, wide) {
        (RowKind::List, true) => 48,
        (RowKind::List, false) => 40,
        (RowKind::Other, true) => 32,
        (RowKind::Other, false) => 24,
    }
}

// The lengths of the columns; in the first form there are no messages.
fn lengths_at(bytes: &[u8], wide: bool, at: usize) -> PerColumn<u64>
    requires { at + lengths_size wide ≤ length bytes.now }
    ensures { result ≡ lengths_at wide bytes.now at }
{
    PerColumn {
        structure: u64_at(bytes, at),
        node_attrs: u64_at(bytes, at + 8),
        edge_attrs: u64_at(bytes, at + 16),
        transient: if wide { u64_at(bytes, at + 24) } else { 0 },
    }
}

// The row at the offset.
fn row_at(kind: RowKind, bytes: &[u8], wide: bool, at: usize) -> Row
    requires { at + row_size kind wide ≤ length bytes.now }
    ensures { result ≡ row_at kind wide bytes.now at }
{
    match kind {
        RowKind::List => {
            let ends = Ends {
                first: u64_at(bytes, at),
                last: u64_at(bytes, at + 8),
            };
            Row {
                ends: Some(ends),
                lengths: lengths_at(bytes, wide, at + 16),
            }
        }
        RowKind::Other => Row {
            ends: None,
            lengths: lengths_at(bytes, wide, at),
        },
    }
}

// Adds so many rows, which stand one behind another from the offset on.
fn add_rows(
    kind: RowKind,
    bytes: &[u8],
    wide: bool,
    at: usize,
    count: u32,
    out: &mut Vec<Row>,
) -> Result<(), AllocError>
    requires { at + row_size kind wide * count ≤ length bytes.now }
    ensures { OnOk result (out.new.items ≡ out.old.items ++ rows_at (row_at kind wide) (row_size kind wide) count bytes.now at) }
{
    let mut offset = at;
    for _ in 0..count {
        out.push(row_at(kind, bytes, wide, offset))?;
        offset += row_size(kind, wide);
    }
    Ok(())
}

/// The rows of a directory whose names end at the offset and which has so many lists and deltas.
/// `AllocError` for want of memory.
pub fn rows_in(
    alloc: Global,
    bytes: &[u8],
    wide: bool,
    end: usize,
    lists: u32,
    deltas: u32,
) -> Result<Vec<Row>, AllocError>
    requires { length bytes.now ≡ end + 8 + list_size wide * lists + lengths_size wide * deltas + lengths_size wide }
    ensures { IfOk result (λ rows. rows.items ≡ rows_at (list_at wide) (list_size wide) lists bytes.now (end + 4) ++ (rows_at (record_at wide) (lengths_size wide) deltas bytes.now (end + 8 + list_size wide * lists) ++ record_at wide bytes.now (end + 8 + list_size wide * lists + lengths_size wide * deltas) ∷ [])) }
{
    let deltas_offset = end + 8 + row_size(RowKind::List, wide) * lists as usize;
    let piece_offset = deltas_offset + row_size(RowKind::Other, wide) * deltas as usize;
    let mut rows = Vec::new(alloc);
    add_rows(RowKind::List, bytes, wide, end + 4, lists, &mut rows)?;
    add_rows(
        RowKind::Other,
        bytes,
        wide,
        deltas_offset,
        deltas,
        &mut rows,
    )?;
    rows.push(row_at(RowKind::Other, bytes, wide, piece_offset))?;
    Ok(rows)
}

/// Whether behind the names, which end at the offset, stand so many lists and deltas, the row of a piece,
/// and no more.
pub fn has_rows(bytes: &[u8], wide: bool, end: usize, lists: u32, deltas: u32) -> bool
    requires { end ≤ length bytes.now }
    ensures { result ≡ (length bytes.now == end + 8 + list_size wide * lists + lengths_size wide * deltas + lengths_size wide && (four_at bytes.now end == lists && four_at bytes.now (end + 4 + list_size wide * lists) == deltas)) }
{
    let piece_bytes = row_size(RowKind::Other, wide);
    let lists_bytes = row_size(RowKind::List, wide) * lists as usize;
    let deltas_bytes = piece_bytes * deltas as usize;
    bytes.len() - end == 8 + lists_bytes + deltas_bytes + piece_bytes
        && u32_at(bytes, end) == lists
        && u32_at(bytes, end + 4 + lists_bytes) == deltas
}

/// Whether the columns that the rows tell of come to so many bytes.
pub fn is_measured(rows: &[Row], columns: u64) -> bool
    ensures { result ≡ (bytes_of_rows rows.now == columns) }
{
    let mut left = columns;
    for row in rows {
        let PerColumn {
            structure,
            node_attrs,
            edge_attrs,
            transient,
        } = row.lengths;
        if left < structure {
            return false;
        }
        if left - structure < node_attrs {
            return false;
        }
        if left - structure - node_attrs < edge_attrs {
            return false;
        }
        if left - structure - node_attrs - edge_attrs < transient {
            return false;
        }
        left -= structure + node_attrs + edge_attrs + transient;
    }
    left == 0
}

/// Whether none of so many deltas behind the lists has messages.
pub fn are_unheard(rows: &[Row], lists: usize, deltas: usize) -> bool
    requires { lists + deltas ≤ length rows.now }
    ensures { result ≡ are_unheard (take deltas (drop lists rows.now)) }
{
    let deltas_rows = &rows[lists..lists + deltas];
    deltas_rows.iter().all(|row| row.lengths.transient == 0)
}

/// Whether the lists begin at the first time or later and end at the last or earlier, each not before the
/// one before it. The lengths of their columns are not looked at.
pub fn may_be_listed(rows: &[Row], first: u64, last: u64) -> bool
    ensures { result ≡ may_be_listed first last rows.now }
{
    let mut floor = first;
    for row in rows {
        if let Some(ends) = row.ends {
            if ends.first < floor || ends.last < ends.first || last < ends.last {
                return false;
            }
            floor = ends.last;
        }
    }
    true
}
