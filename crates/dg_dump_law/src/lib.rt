//! A dump and a load are inverse: what a run of the program comes to over a blank index file and the script that was
//! dumped of an index. Laws alone, each the clause of a function that does nothing.
#![tactic(auto)]

mod laws;

pub use laws::{
    law_dumps_load_back, law_own_files_return, law_runs_keep_own_files, law_scripts_load,
};
