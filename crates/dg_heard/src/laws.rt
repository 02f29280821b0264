//! The laws of what is heard over an image of a history. Each function does nothing: its clause is the law, proved of
//! the definitions.
ghost use Rattle.dg_heard.specs.HistoryLaw.{HeardBytesAreTheHistorys, HistoriesAreHeard};

use dg_columns::law_events_are_read_back;
use dg_fold::law_legal_histories_are_indexed;
use dg_index::law_columns_are_kept;

/// In an image of a history the columns that are heard for instants, with the recent events, have the messages of each.
pub fn law_histories_are_heard()
    ensures { HistoriesAreHeard }
{
    law_columns_are_kept();
    law_events_are_read_back();
    law_legal_histories_are_indexed();
}

/// The bytes that are heard are those of the history's lists.
pub fn law_heard_bytes_are_the_historys()
    ensures { HeardBytesAreTheHistorys }
{}
