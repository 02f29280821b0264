//! The written form of the command line, as a command of clap.
ghost use Rattle.std.specs.Prelude.{◌≡◌, IfOk, false};
ghost use Rattle.clap.specs.Words.{app_of, rule_of};
ghost use Rattle.dg_words.specs.WrittenForm.{bare_program, cache_rule, checked_rule, form, index_rule};

use clap::builder::ValueParser;
use clap::{Arg, ArgAction, Command, value_parser};
use std::alloc::{AllocError, Global};

/// The index file, by which its value is read back.
pub const INDEX: &str = "INDEX";

/// The flag `--checked`, by which it is read back.
pub const CHECKED: &str = "checked";

/// The option `--cache`, by which its value is read back.
pub const CACHE: &str = "cache";

// The most ranges of the file that may be kept in memory.
const CACHE_MAX: u64 = 65_536;

// The program, as clap names it.
const PROGRAM: &str = "deltagraph";

/// `deltagraph [--cache N] [--checked] INDEX`, over the words after the program's name. It asks for no help and for
/// no version.
pub fn command<'a>(alloc: Global) -> Result<Command<'a>, AllocError>
    ensures shape { IfOk result (λ command. app_of command ≡ form) }
{
    program(alloc)
        .arg(index(alloc))?
        .arg(checked(alloc))?
        .arg(cache(alloc))
}

// The program, whose words begin after its name, with neither help nor version.
fn program<'a>(alloc: Global) -> Command<'a>
    ensures shape { app_of result ≡ bare_program }
{
    Command::new(alloc, PROGRAM)
        .no_binary_name(true)
        .disable_help_flag(true)
        .disable_version_flag(true)
}

// `INDEX`, one word that has to be there.
fn index<'a>(alloc: Global) -> Arg<'a>
    ensures rule { rule_of result ≡ index_rule }
    ensures local { result.global ≡ false }
{
    Arg::new(alloc, INDEX).required(true).action(ArgAction::Set)
}

// `--checked`, which takes no value.
fn checked<'a>(alloc: Global) -> Arg<'a>
    ensures rule { rule_of result ≡ checked_rule }
    ensures local { result.global ≡ false }
{
    Arg::new(alloc, CHECKED)
        .long(CHECKED)
        .action(ArgAction::SetTrue)
        .value_parser(value_parser!(bool))
}

// `--cache`, which takes a number up to the most.
fn cache<'a>(alloc: Global) -> Arg<'a>
    ensures rule { rule_of result ≡ cache_rule }
    ensures local { result.global ≡ false }
{
    Arg::new(alloc, CACHE)
        .long(CACHE)
        .action(ArgAction::Set)
        .value_parser(ValueParser::unsigned(0, CACHE_MAX))
}
