//! What the parts of a history are, where it is parted by ids: each is a history of its own. In `specs/` are the
//! definitions. docs/MODEL.md is their prose.
#![tactic(auto)]

mod laws;

pub use laws::{
    law_parts_are_legal, law_parts_have_their_events, law_parts_make_the_whole,
    law_parts_make_the_whole_within_their_ranges, law_parts_show_their_elements,
};
