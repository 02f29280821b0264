//! The index file of a history, over a disk: it is made, reopened, read, and given a batch.
#![tactic(auto)]

mod append;
mod creation;
mod disk_calls;
mod fault;
mod header;
mod index;
mod laws;
mod prepared_segment;
mod reads;

pub use fault::{CommitFault, CreateFault, FetchFault, ReopenFault};
pub use index::Index;
pub use laws::{law_batches_are_measured, law_tidy_images_are_files, law_upgrades_are_measured};
pub use prepared_segment::PreparedSegment;
