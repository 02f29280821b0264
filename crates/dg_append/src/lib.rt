//! Adding a batch to a history: its changes are completed over the current graph, the older children of the interior
//! nodes that it completes are read, its segment is made and written, and what is in memory goes on. docs/MODEL.md
//! has the definitions.
#![tactic(auto)]

mod batch;
mod batch_commit;
mod batch_segment;
mod completion;
mod current_set;
mod fault;
mod front;
mod live;
mod nets;
mod next_batch;
mod older_children;
mod older_sets;
mod older_steps;
mod recent;
mod segment;

pub use batch::{AddedBatch, Batch, add_batch};
pub use fault::BatchFault;
pub use front::Front;
pub use live::Live;
pub use older_sets::{GROUP_MAX, group_limit};
