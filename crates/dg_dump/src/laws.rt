//! The laws of scripts that make a history, each the clause of a function that does nothing.
ghost use Rattle.dg_dump.specs.DumpLaws.{AnswersKeepRemade, BatchesBringTheirNames, BatchesLeaveRoom, ChangesAreByText, CommandsReadBack, LinesReadBack, ScriptsAreShort, ScriptsMakeHistories, ScriptsMakeNothingElse, TextsReadBack};

use dg_machine::law_machine_is_determined;

/// The line of an event reads back as what the event's change says. Does nothing.
pub fn law_lines_read_back()
    ensures { LinesReadBack }
{}

/// The text of the lines of events is cut into these lines, and they read back as what the events' changes say. Does
/// nothing.
pub fn law_texts_read_back()
    ensures { TextsReadBack }
{}

/// The commands of the script are what they are written for. Does nothing.
pub fn law_commands_read_back()
    ensures { CommandsReadBack }
{}

/// The script of a legal history whose names are those of its lines makes this history. Does nothing.
pub fn law_scripts_make_their_histories()
    ensures { ScriptsMakeHistories }
{}

/// Each run over that script in which memory suffices and no read fails makes this history. Does nothing.
pub fn law_scripts_make_nothing_else()
    ensures { ScriptsMakeNothingElse }
{
    law_machine_is_determined();
}

/// A batch of changes brings the names that the lines of its events bring. Does nothing.
pub fn law_batches_bring_their_names()
    ensures { BatchesBringTheirNames }
{}

/// The changes of a batch's lines tell keys and values by their texts, and so do those of `workload`. Does nothing.
pub fn law_changes_are_by_text()
    ensures { ChangesAreByText }
{}

/// The script of a legal history has fewer bytes than a script may have. Does nothing.
pub fn law_scripts_are_short()
    ensures { ScriptsAreShort }
{}

/// Limits that have room for a history and for one more batch have room for both. Does nothing.
pub fn law_batches_leave_room()
    ensures { BatchesLeaveRoom }
{}

/// Each answer keeps a history one that its script makes again. Does nothing.
pub fn law_answers_keep_histories_remade()
    ensures { AnswersKeepRemade }
{}
