//! The events of a batch behind its last closed list, as they are to be written.
ghost use Rattle.std.specs.Prelude.{◌≡◌, ◌<◌, ◌^◌, [], OnOk, OnErr};
ghost use Rattle.dg_index.specs.FileOfHistory.{bytes_of, lent};
ghost use Rattle.dg_index.specs.OpenedIndex.{lengths_of, record_row, total};

use crate::columns::{lengths_of, put_columns, size};
use dg_index::{PerColumn, Row};
use std::alloc::{AllocError, Global};
use std::marker::Model;

/// The piece of a segment, with its columns one behind another.
#[derive(Drop)]
pub(crate) struct Piece {
    row: Row,
    columns: Vec<u8>,
}

impl Model for Piece {
    ghost use Rattle.dg_index.specs.FileOfHistory.{Stored};
    ghost use Rattle.dg_segment.specs.PackedRecords.{IsPacked, stored_at};

    ghost Value = { Stored };

    ghost view = { λ p. stored_at p.row.lengths p.columns.items };

    ghost invariant = { λ p. IsPacked p.row p.columns.items };
}

impl Piece {
    /// A piece without bytes. Takes no memory.
    pub fn new(alloc: Global) -> Piece
        ensures { result ≡ record { structure = []; node_attrs = []; edge_attrs = []; transient = [] } }
    {
        Piece {
            row: Row {
                ends: None,
                lengths: PerColumn {
                    structure: 0,
                    node_attrs: 0,
                    edge_attrs: 0,
                    transient: 0,
                },
            },
            columns: Vec::new(alloc),
        }
    }

    /// Puts these columns in the place of those that the piece has. `AllocError` for want of memory: then
    /// nothing changes.
    pub fn set(&mut self, columns: PerColumn<&[u8]>) -> Result<(), AllocError>
        requires { total (lengths_of (lent columns)) < 2 ^ 64 }
        ensures ok { OnOk result (self.new ≡ lent columns.entry) }
        ensures err { OnErr result (self.new ≡ self.old) }
    {
        self.columns.reserve(size(columns))?;
        self.columns.clear();
        put_columns(&mut self.columns, columns);
        self.row = Row {
            ends: None,
            lengths: lengths_of(columns),
        };
        Ok(())
    }

    /// What a directory tells of the piece.
    pub fn row(&self) -> Row
        ensures { result ≡ record_row self.now }
    {
        self.row
    }

    /// The columns.
    pub fn columns(&self) -> &[u8]
        ensures { result.now ≡ bytes_of self.now }
    {
        self.columns.as_slice()
    }
}
