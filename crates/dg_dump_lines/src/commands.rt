//! The commands of the script.
ghost use Rattle.std.specs.Prelude.{◌≡◌, ◌++◌, [], ◌∷◌, OnOk, OnErr};
ghost use Rattle.dg_dump.specs.ScriptOfHistory.{batch_command, create_line};
ghost use Rattle.dg_dump_lines.specs.PutLines.{CountsAs, CreatesBy, behind, verb_text};

use crate::word::{Word, put_line};
use dg_dump::law_commands_read_back;
use dg_graph::Function;
use dg_history::Params;
use std::alloc::AllocError;

/// Which command a batch is given by.
#[derive(Clone, Copy)]
pub enum BatchVerb {
    /// `load`, for the first batch.
    Load,
    /// `append`, for each batch behind it.
    Append,
}

/// Puts the command that makes an index of these parameters behind the text, with a line feed after it. `AllocError` for
/// want of memory: then the text is as it was.
pub fn put_creation(text: &mut Vec<u8>, params: Params) -> Result<(), AllocError>
    // The line, and that it is the command.
    ensures put { OnOk result (text.new.items ≡ text.old.items ++ (create_line params ++ 10 ∷ [])) }
    ensures read_back { OnOk result (CreatesBy params (behind text.old.items text.new.items)) }

    // No memory.
    ensures err { OnErr result (text.new.items ≡ text.old.items) }
{
    law_commands_read_back();
    put_create_line(text, params)
}

// The line of the command that makes an index.
fn put_create_line(text: &mut Vec<u8>, params: Params) -> Result<(), AllocError>
    ensures put { OnOk result (text.new.items ≡ text.old.items ++ (create_line params ++ 10 ∷ [])) }
    ensures err { OnErr result (text.new.items ≡ text.old.items) }
{
    let create = Word::Text(b"create");
    let list = Word::Number(u64::from(params.l));
    let arity = Word::Number(u64::from(params.k));
    match params.function {
        Function::Intersection => {
            put_line(text, &[create, list, arity, Word::Text(b"intersection")])
        }
        Function::Union => put_line(text, &[create, list, arity, Word::Text(b"union")]),
        Function::Balanced => put_line(text, &[create, list, arity, Word::Text(b"balanced")]),
        Function::Skewed(share) => put_line(
            text,
            &[
                create,
                list,
                arity,
                Word::Text(b"skewed"),
                Word::Number(u64::from(share)),
            ],
        ),
    }
}

/// Puts the command that so many lines of a batch follow behind the text, with a line feed after it. `AllocError` for want
/// of memory: then the text is as it was.
pub fn put_batch_command(text: &mut Vec<u8>, verb: BatchVerb, count: u32) -> Result<(), AllocError>
    // The line, and that it is the command.
    ensures put { OnOk result (text.new.items ≡ text.old.items ++ (batch_command (verb_text verb) count ++ 10 ∷ [])) }
    ensures read_back { OnOk result (CountsAs verb count (behind text.old.items text.new.items)) }

    // No memory.
    ensures err { OnErr result (text.new.items ≡ text.old.items) }
{
    law_commands_read_back();
    put_count_line(text, verb, count)
}

// The line of the command of a batch.
fn put_count_line(text: &mut Vec<u8>, verb: BatchVerb, count: u32) -> Result<(), AllocError>
    ensures put { OnOk result (text.new.items ≡ text.old.items ++ (batch_command (verb_text verb) count ++ 10 ∷ [])) }
    ensures err { OnErr result (text.new.items ≡ text.old.items) }
{
    let word = match verb {
        BatchVerb::Load => b"load".as_slice(),
        BatchVerb::Append => b"append".as_slice(),
    };
    put_line(text, &[Word::Text(word), Word::Number(u64::from(count))])
}
