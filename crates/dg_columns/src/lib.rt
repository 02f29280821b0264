//! The columns of the index file: the one spelling of events and of deltas as bytes, and reading it
//! again, or finding the offset of the damage; and merging the four columns of a list of events to
//! the list. docs/FORMATS.md has the format, and docs/MODEL.md the definitions.
#![tactic(auto)]

mod column_join;
mod column_merge;
mod delta_reader;
mod delta_writer;
mod edge;
mod event_fields;
mod event_reader;
mod event_writer;
mod fault;
mod laws;
mod layout;
mod numbers;
mod runs;
mod sound_elements;

pub use column_join::join;
pub use column_merge::{MergeFault, merge};
pub use delta_reader::{is_delta, push_delta, read_delta};
pub use delta_writer::write_delta;
pub use dg_delta::Delta;
pub use dg_graph::{Column, Event, Placed};
pub use event_reader::read_events;
pub use event_writer::write_events;
pub use fault::ReadFault;
pub use laws::{
    law_deltas_are_read_back, law_deltas_have_one_spelling, law_deltas_that_are_read_fit,
    law_events_are_merged_back, law_events_are_read_back, law_events_have_one_spelling,
    law_events_that_are_read_fit, law_parts_are_joined_back,
};
pub use layout::EVENTS_FRONT;
