//! The net of a list of events: the one delta that leads where the events lead, one after another. Of
//! each element the last event that names it decides. docs/MODEL.md has the definitions.
#![tactic(auto)]

mod exact;
mod laws;
mod marks;
mod net;

pub use dg_delta::Delta;
pub use dg_event::Event;
pub use exact::exact_net;
pub use laws::{law_changes_of_a_graph_are_exact, law_changes_of_a_graph_lead_to_a_graph};
pub use net::{merge_lists, net_back, net_to, whole_net};
