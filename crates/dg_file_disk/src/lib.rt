//! The disk over a real file. One run at a time writes it and any number read it, and a file that is not as this run has
//! seen or left it is not written.
#![tactic(auto)]

mod disk;
mod guard;
mod opened;
mod reason;
mod stamp;
mod stored;

pub use disk::FileDisk;
pub use reason::Failure;
