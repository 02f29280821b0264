//! The laws of the parts of a history, each the clause of a function that does nothing.
ghost use Rattle.dg_partition.specs.PartLaws.{PartsAreLegal, PartsHaveTheirEvents, PartsShowTheirElements, PartsMakeTheWhole, PartsMakeTheWholeWithin};

/// Each part of a legal history is a legal history. Does nothing.
pub fn law_parts_are_legal()
    ensures { PartsAreLegal }
{}

/// The events of a part of a legal history are those that belong to it, in their order. Does nothing.
pub fn law_parts_have_their_events()
    ensures { PartsHaveTheirEvents }
{}

/// What is shown of a part as of an instant, in columns and with the messages of the instant, is what the part has of
/// what is shown of the whole. Does nothing.
pub fn law_parts_show_their_elements()
    ensures { PartsShowTheirElements }
{}

/// The parts together show, as of each instant, what the whole shows. Does nothing.
pub fn law_parts_make_the_whole()
    ensures { PartsMakeTheWhole }
{}

/// So they do where each is asked for no instant but its own: before its first instant it shows nothing, and behind its last
/// one what it shows as of that, without messages. Does nothing.
pub fn law_parts_make_the_whole_within_their_ranges()
    ensures { PartsMakeTheWholeWithin }
{}
