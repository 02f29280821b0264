//! The cells of a pool of graphs: numbered, each with an element of its own and 256 bits.
#![tactic(auto)]

mod cell_fill;
mod cell_merge;
mod cells;
mod cursors;
mod listing;
mod pieces;
mod positions;
mod row;

pub use cells::Cells;
pub use cursors::Cursor;
pub use row::{Row, is_current, pair};
