//! The messages of instants, read from the lists of an index, and put behind what leads to the graphs as of these.
//! docs/MODEL.md has the definitions.
#![tactic(auto)]

mod collected;
mod hearing;
mod once;
mod sets;
mod told;

pub use hearing::hear;
pub use told::messages;
