//! Values to lines: the text of a reply. docs/SCRIPT.md has the replies.
#![tactic(auto)]

mod body_line;
mod head;
mod query;
mod refusal;
mod reply;
mod reply_buffer;
mod reply_line;

pub use dg_graph::{Column, Element, Function};
pub use dg_history::{Key, NodeId};
pub use dg_machine::{BodyLine, BodyLines, Head, Refusal, Reply};
pub use dg_plan::Verdict;
pub use dg_query::{Counts, KeyValue, Neighbour, Side};
pub use dg_sound::Soundness;
pub use reply::write_reply;
