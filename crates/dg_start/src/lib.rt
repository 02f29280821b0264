//! Starting over an index file: the index is opened, the recent events are read, the graph behind the last closed
//! list is composed along its plan, and the current graph is made of the two. docs/MODEL.md has the definitions.
#![tactic(auto)]

mod current_graph;
mod event_source;
mod fault;
mod keys;
mod last_leaf;
mod laws;
mod opening;
mod record;
mod source_events;

pub use event_source::EventSource;
pub use fault::{RecordColumn, StartFault};
pub use keys::has_key;
pub use laws::{law_images_start_as_they_stand, law_starts_are_determined};
pub use opening::open;
pub use record::read_record;
