//! The loop of a script, over any machine that carries out its commands: what the next line comes to, what it is
//! answered, and the run.
#![tactic(auto)]

mod commands;
mod end;
mod entry;
mod machine;
mod run;
mod stop;
mod turn;

pub use commands::Commands;
pub use dg_io::{Lines, Sink, Source};
pub use dg_machine::{Command, Refusal, Reply};
pub use dg_names::Names;
pub use end::End;
pub use entry::{Taken, next_entry};
pub use machine::Machine;
pub use run::answer_script;
pub use stop::Stop;
