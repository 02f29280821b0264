//! That the entries which stand whole are the first ones of the script.
ghost use Rattle.dg_cuts.specs.WholeEntries.{WholeEntriesAreAFront};

/// By any grammar of commands, the entries that stand whole, with their line feeds, in the bytes that were taken of a script
/// are the first entries of the script, however it goes on. Does nothing.
pub fn law_whole_entries_are_a_front()
    ensures { WholeEntriesAreAFront }
{}
