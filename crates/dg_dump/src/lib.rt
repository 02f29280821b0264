//! The script that makes an index: its text, and, in `specs/`, which histories it gives back.
#![tactic(auto)]

mod laws;

pub use laws::{
    law_answers_keep_histories_remade, law_batches_bring_their_names, law_batches_leave_room,
    law_changes_are_by_text, law_commands_read_back, law_lines_read_back, law_scripts_are_short,
    law_scripts_make_nothing_else, law_scripts_make_their_histories, law_texts_read_back,
};
