//! The law of what is read over an image of a history. The function does nothing: its clause is the law, proved of the
//! definitions.
ghost use Rattle.dg_range.specs.AddedLaw.{ImagesHaveAdded};
ghost use Rattle.dg_range.specs.ValueLaw.{ImagesHaveValues};

use dg_aux::law_columns_have_turns;
use dg_columns::law_events_are_read_back;
use dg_fold::law_legal_histories_are_indexed;
use dg_index::law_columns_are_kept;

/// In an image of a history the columns of node attributes, with the recent events, have the values of all events.
pub fn law_images_have_values()
    ensures { ImagesHaveValues }
{
    law_columns_are_kept();
    law_events_are_read_back();
    law_legal_histories_are_indexed();
    law_columns_have_turns();
}

/// In an image of a history the asked columns of the lists of a range, with the recent events, add within the range what all
/// events add.
pub fn law_images_have_added()
    ensures { ImagesHaveAdded }
{
    law_columns_are_kept();
    law_events_are_read_back();
    law_legal_histories_are_indexed();
}
