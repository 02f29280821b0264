//! The command that a line is, or the column at which it leaves the grammar.
ghost use Rattle.std.specs.Prelude.{◌≡◌, ◌+◌, ◌<◌, IfErr, IfOk, IfSome};
ghost use Rattle.std.specs.Result.{result_ok};
ghost use Rattle.dg_line.specs.PartGrammar.{part_command_of};
ghost use Rattle.dg_machine.specs.CommandGrammar.{IsColumn, IsColumnBy, CountIsInRange, command_of};

use crate::rows::{command, command_prefix};
use crate::table::{COMMANDS, PART_COMMANDS};
use dg_machine::Command;
use thiserror::Error;

/// Every line of a row has fewer bytes: at most five words, of at most 20 bytes and a space each, and behind them an
/// expression, a key and a value, or instants.
const COMMAND_BYTES: usize = 2100;

/// The line is in no command; the column, from 1, at which it leaves the grammar.
#[derive(Clone, Copy, Debug, Error)]
#[error("the line leaves the grammar of commands at column {0}")]
pub struct Syntax(pub u32);

/// The command that the line is, or the column at which it leaves the grammar of commands: it is 1
/// more than the length of the longest prefix of the line that is a prefix of some command. The number
/// of lines that follow a command, of its generated changes, of its instants, of its cells, or of the
/// bytes of its texts, is in its range. It takes no memory.
pub fn read_command(line: &[u8]) -> Result<Command, Syntax>
    ensures command { result_ok result ≡ command_of line.now }
    ensures ranges { IfOk result (λ c. CountIsInRange c) }
    ensures column { IfErr result (λ syntax. IsColumn line.now syntax.0) }
{
    match whole_command(line) {
        Some(command) => Ok(command),
        None => Err(Syntax(column(line))),
    }
}

/// The command that the line is of those that several parts answer together, or the column at which it leaves their
/// grammar: it is 1 more than the length of the longest prefix of the line that is a prefix of some such command. Its
/// numbers are in their ranges. It takes no memory.
pub fn read_part_command(line: &[u8]) -> Result<Command, Syntax>
    ensures command { result_ok result ≡ part_command_of line.now }
    ensures ranges { IfOk result (λ c. CountIsInRange c) }
    ensures column { IfErr result (λ syntax. IsColumnBy part_command_of line.now syntax.0) }
{
    match part_command(line) {
        Some(command) => Ok(command),
        None => Err(Syntax(part_column(line))),
    }
}

// The command that the line is.
fn whole_command(line: &[u8]) -> Option<Command>
    ensures command { result ≡ command_of line.now }
    ensures range { IfSome result (λ c. CountIsInRange c) }
{
    command(COMMANDS, line)
}

// The command that the line is of those of several parts.
fn part_command(line: &[u8]) -> Option<Command>
    ensures command { result ≡ part_command_of line.now }
    ensures range { IfSome result (λ c. CountIsInRange c) }
{
    command(PART_COMMANDS, line)
}

// The column, from 1, at which the line leaves the grammar of commands: 1 more than the length of
// the longest prefix of the line that is a prefix of some command.
fn column(line: &[u8]) -> u32
    ensures { IsColumn line.now result }
{
    whole_prefix(line) as u32 + 1
}

// The length of the longest prefix of the line that is a prefix of some command.
fn whole_prefix(line: &[u8]) -> usize
    ensures column { IsColumn line.now (result + 1) }
    ensures short { result < COMMAND_BYTES }
{
    command_prefix(COMMANDS, line)
}

// The column, from 1, at which the line leaves the grammar of several parts.
fn part_column(line: &[u8]) -> u32
    ensures { IsColumnBy part_command_of line.now result }
{
    part_prefix(line) as u32 + 1
}

// The length of the longest prefix of the line that is a prefix of some command of several parts.
fn part_prefix(line: &[u8]) -> usize
    ensures column { IsColumnBy part_command_of line.now (result + 1) }
    ensures short { result < COMMAND_BYTES }
{
    command_prefix(PART_COMMANDS, line)
}
