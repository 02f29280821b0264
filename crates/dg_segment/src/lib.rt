//! A segment: as it is to be written for a batch, with its names and the columns of its lists, of its deltas and of
//! its piece; and its directory, written and read, with its batch, its names and the rows of its records.
#![tactic(auto)]

mod batch;
mod columns;
mod found;
mod lengths;
mod names_read;
mod names_written;
mod piece;
mod records;
mod rows_read;
mod rows_written;
mod segment;

pub use batch::{batch_at, may_follow};
pub use found::FoundDirectory;
pub use lengths::{LENGTHS_BYTES, Lengths, MARKER_BYTES};
pub use names_read::{DirectoryFault, NAMES_OFFSET, read_names};
pub use names_written::{NAME_LENGTH_BYTES, NewNames};
pub use rows_read::{are_unheard, has_rows, is_measured, may_be_listed, rows_in};
pub use rows_written::{put_count, put_number, put_row, put_table};
pub use segment::Segment;
