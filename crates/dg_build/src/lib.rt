//! The segment of a batch, made over memory: the columns of the closed lists that it gives, of the deltas
//! of the interior nodes that it completes, and of its piece. docs/MODEL.md has the definitions.
#![tactic(auto)]

mod batch;
mod climb;
mod family;
mod fault;
mod first_list;
mod heights;
mod leaves;
mod records;
mod row;
mod start;

pub use batch::build;
pub use dg_segment::Segment;
pub use fault::BuildFault;
pub use start::is_top_due;
