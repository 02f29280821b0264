//! The laws of sound files: an index file is sound exactly where it is the file of the history of its own events.
//! docs/MODEL.md says them in prose.
#![tactic(auto)]

mod laws;

pub use laws::{law_sound_files_stand, law_standing_files_are_sound};
