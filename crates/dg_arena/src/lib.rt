//! Numbered cells in chunks of raw memory, each with a value and 256 bits.
#![tactic(auto)]

mod cell;
mod chunk;
mod columns;
mod raw;
mod row;
mod rows;
mod store;
mod words;

pub use cell::{Cell, Link};
pub use chunk::Chunk;
pub use columns::{Columns, Spot};
pub use raw::{Places, Start, Title};
pub use row::{Row, has_bit, set_bit, without_bits};
pub use rows::Rows;
pub use store::Store;
pub use words::Words;
