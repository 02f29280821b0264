//! What the index of a history is: its nodes, its records, its file, and how an image is opened. The
//! plain types of what an index keeps, and, in `specs/`, the definitions. docs/MODEL.md is their prose.
#![tactic(auto)]

mod entry;
mod laws;
mod per_column;

pub use entry::{BatchEntry, Ends, Entry, Row};
pub use laws::{
    law_batches_are_added, law_columns_are_kept, law_files_grow, law_files_upgrade,
    law_images_are_opened, law_upgrades_are_added,
};
pub use per_column::PerColumn;
