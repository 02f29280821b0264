//! The numbers in the words of a line.
ghost use Rattle.std.specs.Prelude.{◌≡◌};
ghost use Rattle.dg_changes.specs.ChangeGrammar.{id_of, time_of};
ghost use Rattle.dg_machine.specs.CommandGrammar.{n32_of};

pub(crate) use dg_grammar::{Words, is, number, only_number};
use dg_graph::TIME_MAX;

/// What is found; where nothing is, the function that looks for it has no value. This is `?` at an
/// `Option` without the two calls that `?` is: the readers of words are many, and a proof follows each
/// call.
macro_rules! found {
    ($option:expr) => {
        match $option {
            Some(found) => found,
            None => return None,
        }
    };
}

pub(crate) use found;

/// A number of 32 bits.
pub fn n32(word: &[u8]) -> Option<u32>
    ensures { result ≡ n32_of word.now }
{
    let value = found!(number(word, 0, u64::from(u32::MAX)));
    Some(value as u32)
}

/// An instant, or another number that is at most the greatest instant.
pub fn time(word: &[u8]) -> Option<u64>
    ensures { result ≡ time_of word.now }
{
    number(word, 0, TIME_MAX)
}

/// The id of a node or an edge.
pub fn id(word: &[u8]) -> Option<u64>
    ensures { result ≡ id_of word.now }
{
    number(word, 0, u64::MAX)
}
