//! Batches of changes, from the lines of a script or from a seed to the history and the pool of a session, and why a
//! command stops. docs/SCRIPT.md has the lines.
#![tactic(auto)]

mod addition;
mod batch_lines;
mod generated;
mod halt;
mod held;
mod plan_lines;
mod stop;

pub use addition::add_changes;
pub use batch_lines::read_batch;
pub use generated::generated_batch;
pub use halt::Halt;
pub use held::Held;
pub use plan_lines::{PlanLines, read_plan_lines};
pub use stop::Stop;
