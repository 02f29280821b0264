//! A line of words, put into bytes.
ghost use Rattle.std.specs.Prelude.{◌≡◌, ◌++◌, map, OnOk, OnErr};
ghost use Rattle.dg_machine.specs.ReplyText.{text_line};
ghost use Rattle.dg_dump_lines.specs.PutLines.{GoesOn, word_bytes};

use itoa::Buffer;
use std::alloc::AllocError;

/// A word of a line of text.
#[derive(Clone, Copy)]
pub enum Word<'a> {
    /// These bytes.
    Text(&'a [u8]),
    /// The decimal text of a number.
    Number(u64),
}

/// Puts the words behind the text, with a space between each two and a line feed after the last. An `Err` says that memory
/// ran out, and the text is as it was.
#[tactic(auto, using(crate::proofs::Lines::cut_back))]
pub fn put_line(text: &mut Vec<u8>, words: &[Word]) -> Result<(), AllocError>
    ensures put { OnOk result (text.new.items ≡ text.old.items ++ text_line (map word_bytes words.now)) }
    ensures err { OnErr result (text.new.items ≡ text.old.items) }
{
    let before = text.len();
    match put_words(text, words) {
        Ok(()) => Ok(()),
        Err(error) => {
            text.truncate(before);
            Err(error)
        }
    }
}

// The same, but that after an `Err` a part of the line may stand behind the text.
fn put_words(text: &mut Vec<u8>, words: &[Word]) -> Result<(), AllocError>
    ensures put { OnOk result (text.new.items ≡ text.old.items ++ text_line (map word_bytes words.now)) }
    ensures kept { GoesOn text.old.items text.new.items }
{
    let mut between = b"".as_slice();
    for word in words {
        text.extend_from_slice(between)?;
        put_word(text, word)?;
        between = b" ".as_slice();
    }
    text.extend_from_slice(b"\n")
}

// Puts the word behind the text. An `Err` says that memory ran out, and the text is as it was.
fn put_word(text: &mut Vec<u8>, word: &Word) -> Result<(), AllocError>
    ensures put { OnOk result (text.new.items ≡ text.old.items ++ word_bytes word.now) }
    ensures err { OnErr result (text.new.items ≡ text.old.items) }
{
    match word {
        Word::Text(bytes) => text.extend_from_slice(bytes),
        Word::Number(n) => {
            let mut digits = Buffer::new();
            text.extend_from_slice(digits.format(*n).as_bytes())
        }
    }
}
