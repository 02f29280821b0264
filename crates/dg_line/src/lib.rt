//! Lines to values: which line of the script is which command, change or plan line. docs/SCRIPT.md has
//! the grammar.
#![tactic(auto)]

mod change;
mod command;
mod plan_line;
mod rows;
mod table;
mod tails;
mod text_change;
mod words;

pub use change::{ChangeFault, read_change};
pub use command::{Syntax, read_command, read_part_command};
pub use dg_graph::{Change, Columns, Function, What};
pub use dg_history::NodeId;
pub use dg_machine::{Command, Query, TIMES_MAX};
pub use dg_plan::PlanLine;
pub use plan_line::read_plan_line;
