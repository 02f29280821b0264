//! An index from the values of one node attribute to nodes: which nodes have a value at an instant.
//! docs/MODEL.md has the definitions.
#![tactic(auto)]

mod aux;
mod found;
mod laws;
mod turns;

pub use aux::Aux;
pub use laws::{
    law_batches_keep_values, law_columns_have_turns, law_found_nodes_are_there,
    law_turns_add_as_their_events, law_turns_stand_for_events,
};
