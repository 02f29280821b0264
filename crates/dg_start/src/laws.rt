//! The laws of starting. The functions do nothing: their clauses are the laws.

ghost use Rattle.dg_start.specs.Calls.{StartsAsItStands};
ghost use Rattle.dg_start.specs.SessionStart.{StartsAreDetermined};

use dg_columns::{law_events_are_merged_back, law_events_are_read_back};

/// An image comes to one start. Does nothing.
pub fn law_starts_are_determined()
    ensures { StartsAreDetermined }
{}

/// An image that stands for a history, or for none, starts as that. Does nothing.
pub fn law_images_start_as_they_stand()
    ensures { StartsAsItStands }
{
    law_events_are_read_back();
    law_events_are_merged_back();
}
