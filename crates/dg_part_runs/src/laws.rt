//! A law of the parts of a history, the clause of a function that does nothing.
ghost use Rattle.dg_part_runs.specs.PartNames.{PartsHaveTheNames};

use dg_partition::law_parts_have_their_events;

/// The names by which the parts of a legal history write together are the names of the history. Does nothing.
pub fn law_parts_have_the_names_of_the_whole()
    ensures { PartsHaveTheNames }
{
    law_parts_have_their_events();
}
