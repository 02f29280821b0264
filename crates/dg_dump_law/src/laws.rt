//! The laws of a dump that is loaded.
ghost use Rattle.dg_dump_law.specs.OwnFiles.{OwnFilesReturn, RunsKeepOwnFiles};
ghost use Rattle.dg_dump_law.specs.ScriptLoads.{DumpsLoadBack, ScriptsLoad};

use dg_disk::Disk;
use dg_dump::{
    law_answers_keep_histories_remade, law_scripts_are_short, law_scripts_make_nothing_else,
};
use dg_io::Sink;

/// A run over a blank index file and the script of a history makes this history, in the second form. Does nothing.
pub fn law_scripts_load<D: Disk>()
    ensures { ScriptsLoad D.Disk }
{
    law_scripts_make_nothing_else();
    law_scripts_are_short();
}

/// So does a run over what was dumped of an index that has this history. Does nothing.
pub fn law_dumps_load_back<C: Disk, K: Sink, D: Disk>()
    ensures { DumpsLoadBack C.Disk K.Sink D.Disk }
{
    law_scripts_load::<D>();
}

/// Runs over a blank index file, by whatever scripts, leave one that its script makes again. Does nothing.
pub fn law_runs_keep_own_files<D: Disk>()
    ensures { RunsKeepOwnFiles D.Disk }
{
    law_answers_keep_histories_remade();
}

/// What was dumped of such a file makes it again, byte for byte. Does nothing.
pub fn law_own_files_return<C: Disk, K: Sink, D: Disk>()
    ensures { OwnFilesReturn C.Disk K.Sink D.Disk }
{
    law_dumps_load_back::<C, K, D>();
}
