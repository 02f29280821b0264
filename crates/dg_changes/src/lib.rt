//! What the lines of a batch come to: the grammar of changes, the next batch of a history, the changes that come to events,
//! and the generated changes of a seed. The definitions stand in `specs/`; docs/MODEL.md is their prose. Nothing here runs.
#![tactic(auto)]

ghost use Rattle.dg_changes.specs.EventChanges.{ChangesCome};

/// Events that are changes one after another, in the order of time, are what these changes come to. Does nothing.
pub fn law_changes_come_to_their_events()
    ensures { ChangesCome }
{}
