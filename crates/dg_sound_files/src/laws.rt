//! The laws of sound files. Each function does nothing: its clause is the law, proved of the definitions.

ghost use Rattle.dg_sound_files.specs.SoundFiles.{SoundFilesStand, StandingFilesAreSound};

use dg_columns::{
    law_events_are_merged_back, law_events_are_read_back, law_events_have_one_spelling,
    law_events_that_are_read_fit,
};
use dg_index::law_columns_are_kept;

/// An image of a history is sound, its own events are those of the history, and their history is that one. Does nothing.
pub fn law_standing_files_are_sound()
    ensures { StandingFilesAreSound }
{
    law_columns_are_kept();
    law_events_are_read_back();
    law_events_are_merged_back();
}

/// An image of bytes that is sound is the image of the history of its own events. Does nothing.
pub fn law_sound_files_stand()
    ensures { SoundFilesStand }
{
    law_events_have_one_spelling();
    law_events_that_are_read_fit();
}
