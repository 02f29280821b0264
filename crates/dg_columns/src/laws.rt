//! The laws of columns. Each function does nothing: its clause is the law, proved of the definitions.

ghost use Rattle.dg_columns.specs.ReadFits.{DeltasThatAreReadFit, EventsThatAreReadFit, PartsAreJoinedBack};
ghost use Rattle.dg_columns.specs.ColumnLaws.{
  EventsHaveOneSpelling,
  DeltasHaveOneSpelling,
  EventsAreReadBack,
  EventsAreMergedBack,
  DeltasAreReadBack,
};

/// Bytes that are read as events are the one spelling of these events.
pub fn law_events_have_one_spelling()
    ensures { EventsHaveOneSpelling }
{}

/// Bytes that are read as a delta are the one spelling of its two sets.
pub fn law_deltas_have_one_spelling()
    ensures { DeltasHaveOneSpelling }
{}

/// The column of events in their ranges and in order of time is read as the events of that column,
/// with their positions.
pub fn law_events_are_read_back()
    ensures { EventsAreReadBack }
{}

/// The four columns of a list of events in order of time are merged to the list.
pub fn law_events_are_merged_back()
    ensures { EventsAreMergedBack }
{}

/// The column of a delta without messages whose elements are in their ranges is read as the delta of that
/// column's elements.
pub fn law_deltas_are_read_back()
    ensures { DeltasAreReadBack }
{}

/// Bytes that are read as a delta are read as one whose two sets rise, share no element, stand in the
/// column, and have ids and names in their ranges.
pub fn law_deltas_that_are_read_fit()
    ensures { DeltasThatAreReadFit }
{}

/// The parts of a delta without messages that stand in the three other columns are joined to the delta.
pub fn law_parts_are_joined_back()
    ensures { PartsAreJoinedBack }
{}

/// Bytes that are read as events are read as events of the column whose positions rise, whose times do
/// not fall, and whose ids and names are in their ranges.
pub fn law_events_that_are_read_fit()
    ensures { EventsThatAreReadFit }
{}
