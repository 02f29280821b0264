//! The lists, or the deltas, of a batch, their columns one behind another as in the file.
ghost use Rattle.std.specs.Prelude.{◌≡◌, ◌<◌, ◌^◌, ◌∷◌, ◌++◌, [], length, map, OnOk, OnErr};
ghost use Rattle.dg_index.specs.FileOfHistory.{lent};
ghost use Rattle.dg_index.specs.OpenedIndex.{lengths_of, total};
ghost use Rattle.dg_segment.specs.PackedRecords.{stored_bytes, stored_row};

use crate::columns::{lengths_of, put_columns, size};
use dg_index::{Ends, PerColumn, Row};
use std::alloc::{AllocError, Global};
use std::marker::Model;

/// The most records: their count has four bytes.
const RECORDS_MAX: usize = 4_294_967_295;

/// Records of a segment, with their columns one record behind another.
#[derive(Drop)]
pub(crate) struct Records {
    rows: Vec<Row>,
    columns: Vec<u8>,
}

impl Model for Records {
    ghost use Rattle.std.specs.Prelude.{List};
    ghost use Rattle.dg_segment.specs.PackedRecords.{ArePacked, StoredRecord, unpacked};

    ghost Value = { List StoredRecord };

    ghost view = { λ r. unpacked r.rows.items r.columns.items };

    ghost invariant = { λ r. ArePacked r.rows.items r.columns.items };
}

impl Records {
    /// No record. Takes no memory.
    pub fn new(alloc: Global) -> Records
        ensures { result ≡ [] }
    {
        Records {
            rows: Vec::new(alloc),
            columns: Vec::new(alloc),
        }
    }

    /// Adds a record behind the others, with its instants where it is a list. `AllocError` for want of
    /// memory, and where there are 2^32 - 1 records: then nothing changes.
    pub fn push(&mut self, ends: Option<Ends>, columns: PerColumn<&[u8]>) -> Result<(), AllocError>
        requires { total (lengths_of (lent columns)) < 2 ^ 64 }
        ensures ok { OnOk result (self.new ≡ self.old ++ record { ends = ends; columns = lent columns.entry } ∷ []) }
        ensures err { OnErr result (self.new ≡ self.old) }
    {
        if self.rows.len() >= RECORDS_MAX {
            return Err(AllocError);
        }
        let lengths = lengths_of(columns);
        self.rows.reserve(1)?;
        self.columns.reserve(size(columns))?;
        self.rows.push(Row { ends, lengths }).unwrap();
        put_columns(&mut self.columns, columns);
        Ok(())
    }

    /// What a directory tells of each record.
    pub fn rows(&self) -> &[Row]
        ensures rows { result.now ≡ map stored_row self.now }
        ensures few { length result.now < 2 ^ 32 }
    {
        self.rows.as_slice()
    }

    /// The columns of the records, one record behind another.
    pub fn columns(&self) -> &[u8]
        ensures { result.now ≡ stored_bytes self.now }
    {
        self.columns.as_slice()
    }
}
