//! Which commands a script may have.
ghost use Rattle.std.specs.Prelude.{◌≡◌, IfErr, IfOk};
ghost use Rattle.std.specs.Result.{result_ok};
ghost use Rattle.dg_machine.specs.CommandGrammar.{CountIsInRange, IsColumnBy};
ghost use Rattle.dg_turns.specs.Grammars.{grammar_of};

use dg_line::{Syntax, read_command, read_part_command};
use dg_machine::Command;

/// Which commands a script may have.
#[derive(Clone, Copy)]
pub enum Commands {
    /// All of them.
    All,
    /// Those that several parts of an index answer together.
    OfParts,
}

impl Commands {
    /// The command of these that the line is, or the column at which it leaves their grammar. It takes no memory.
    pub(crate) fn read(self, line: &[u8]) -> Result<Command, Syntax>
        ensures command { result_ok result ≡ grammar_of self line.now }
        ensures ranges { IfOk result (λ c. CountIsInRange c) }
        ensures column { IfErr result (λ syntax. IsColumnBy (grammar_of self) line.now syntax.0) }
    {
        match self {
            Commands::All => read_command(line),
            Commands::OfParts => read_part_command(line),
        }
    }
}
