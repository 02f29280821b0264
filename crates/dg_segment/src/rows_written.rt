//! The rows of a directory as bytes, and its numbers, each put behind what is there.

ghost use Rattle.std.specs.Prelude.{◌≡◌, ◌<◌, ◌^◌, ◌++◌, length, OnOk};
ghost use Rattle.std.specs.List.{flat_map};
ghost use Rattle.dg_graph.specs.Columns.{eight, four};
ghost use Rattle.dg_segment.specs.RowTexts.{lengths_text, row_text};

use dg_index::{Ends, PerColumn, Row};
use std::alloc::AllocError;

/// Puts a number of eight bytes.
pub fn put_number(number: u64, into: &mut Vec<u8>) -> Result<(), AllocError>
    ensures { OnOk result (into.new.items ≡ into.old.items ++ eight number) }
{
    into.extend_from_slice(&number.to_be_bytes())?;
    Ok(())
}

/// Puts a count of four bytes.
pub fn put_count(count: u32, into: &mut Vec<u8>) -> Result<(), AllocError>
    ensures { OnOk result (into.new.items ≡ into.old.items ++ four count) }
{
    into.extend_from_slice(&count.to_be_bytes())?;
    Ok(())
}

/// Puts a row: the instants of a list, and the lengths of the columns, of which the second form has four.
pub fn put_row(row: Row, wide: bool, into: &mut Vec<u8>) -> Result<(), AllocError>
    ensures { OnOk result (into.new.items ≡ into.old.items ++ row_text wide row) }
{
    match row.ends {
        Some(ends) => {
            put_ends(ends, into)?;
            put_lengths(row.lengths, wide, into)?;
            Ok(())
        }
        None => put_lengths(row.lengths, wide, into),
    }
}

/// Puts the rows behind their count.
pub fn put_table(rows: &[Row], wide: bool, into: &mut Vec<u8>) -> Result<(), AllocError>
    requires { length rows.now < 2 ^ 32 }
    ensures { OnOk result (into.new.items ≡ into.old.items ++ (four (length rows.now) ++ flat_map (row_text wide) rows.now)) }
{
    put_count(rows.len() as u32, into)?;
    for row in rows {
        put_row(*row, wide, into)?;
    }
    Ok(())
}

fn put_ends(ends: Ends, into: &mut Vec<u8>) -> Result<(), AllocError>
    ensures { OnOk result (into.new.items ≡ into.old.items ++ (eight ends.first ++ eight ends.last)) }
{
    put_number(ends.first, into)?;
    put_number(ends.last, into)?;
    Ok(())
}

fn put_lengths(lengths: PerColumn<u64>, wide: bool, into: &mut Vec<u8>) -> Result<(), AllocError>
    ensures { OnOk result (into.new.items ≡ into.old.items ++ lengths_text wide lengths) }
{
    put_number(lengths.structure, into)?;
    put_number(lengths.node_attrs, into)?;
    put_number(lengths.edge_attrs, into)?;
    if wide {
        put_number(lengths.transient, into)?;
    }
    Ok(())
}
