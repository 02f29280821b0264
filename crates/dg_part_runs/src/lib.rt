//! A script over the parts of one history, read together: three commands, by which what the parts show as of an instant is
//! put together, listed and given up.
#![tactic(auto)]

mod ends;
mod gather;
mod handle_sets;
mod laws;
mod run;
mod sessions;
mod start;
mod status;

pub use dg_session::SessionFault;
pub use laws::law_parts_have_the_names_of_the_whole;
pub use run::serve_parts;
pub use start::PARTS_MAX;
pub use status::PartsStatus;
