//! The words of a line of a reply.

ghost use Rattle.std.specs.Prelude.{◌≡◌, ◌+◌, ◌<◌, ◌≤◌, ◌++◌, List, ℕ, [], ◌∷◌, decimal, length, map, take};
ghost use Rattle.dg_machine.specs.ReplyText.{column_word, key_words, node_words};
ghost use Rattle.dg_reply.specs.Buffered.{word_bytes};
ghost use Rattle.dg_reply.specs.declared.reply_line.TheConstants.{WORDS_MAX};

use crate::reply_buffer::Word::{self, Number, Text};
use dg_graph::Column;
use dg_history::{Key, NodeId};

/// The most words that a line of a reply has.
pub(crate) const WORDS_MAX: usize = 9;

/// The first word of an answer.
pub(crate) const OK: Word<'static> = Text(b"ok");

/// What stands behind the last word of a line.
const NO_WORD: Word<'static> = Text(b"");

/// The words of a line.
#[derive(Clone, Copy)]
pub(crate) struct ReplyLine<'a> {
    /// The words, and behind them others that are none of the line.
    pub words: [Word<'a>; WORDS_MAX],
    /// How many words the line has.
    pub len: usize,
    ghost whole: { length words ≡ WORDS_MAX },
}

impl<'a> ReplyLine<'a> {
    /// The line of these words.
    pub fn of(words: &[Word<'a>]) -> ReplyLine<'a>
        requires { length words.now ≤ WORDS_MAX }
        ensures words { map word_bytes (take result.len result.words) ≡ map word_bytes words.now }
        ensures len { result.len ≡ length words.now }
    {
        let mut all = [NO_WORD; WORDS_MAX];
        all[..words.len()].copy_from_slice(words);
        ReplyLine {
            words: all,
            len: words.len(),
        }
    }

    /// The words, in order.
    pub fn words(&self) -> &[Word<'a>]
        requires { self.now.len ≤ WORDS_MAX }
        ensures { map word_bytes result.now ≡ map word_bytes (take self.now.len self.now.words) }
    {
        &self.words[..self.len]
    }

    /// Puts a word behind the last.
    pub fn put(&mut self, word: Word<'a>)
        requires { self.old.len < WORDS_MAX }
        ensures words { map word_bytes (take self.new.len self.new.words) ≡ map word_bytes (take self.old.len self.old.words) ++ word_bytes word.entry ∷ [] }
        ensures len { self.new.len ≡ self.old.len + 1 }
    {
        self.words[self.len] = word;
        self.len += 1;
    }

    /// Puts a word and a number behind the last.
    pub fn put_numbered(&mut self, kind: &'static [u8], number: u32)
        requires { self.old.len + 2 ≤ WORDS_MAX }
        ensures words { map word_bytes (take self.new.len self.new.words) ≡ map word_bytes (take self.old.len self.old.words) ++ kind.now ∷ decimal number ∷ [] }
        ensures len { self.new.len ≡ self.old.len + 2 }
    {
        self.put(Text(kind));
        self.put(Number(u64::from(number)));
    }

    /// Puts the words of a node behind the last.
    pub fn put_node(&mut self, node: NodeId)
        requires { self.old.len + 3 ≤ WORDS_MAX }
        ensures words { map word_bytes (take self.new.len self.new.words) ≡ map word_bytes (take self.old.len self.old.words) ++ node_words node }
        ensures len { self.new.len ≤ self.old.len + 3 }
    {
        match node {
            NodeId::Root => self.put(Text(b"root")),
            NodeId::Now => self.put(Text(b"now")),
            NodeId::Recent => self.put(Text(b"recent")),
            NodeId::Leaf(number) => self.put_numbered(b"leaf", number),
            NodeId::List(number) => self.put_numbered(b"list", number),
            NodeId::Inner(height, number) => {
                self.put_numbered(b"inner", height);
                self.put(Number(u64::from(number)));
            }
        }
    }

    /// Puts the words of a record's key behind the last.
    pub fn put_key(&mut self, key: Key)
        requires { self.old.len + 3 ≤ WORDS_MAX }
        ensures words { map word_bytes (take self.new.len self.new.words) ≡ map word_bytes (take self.old.len self.old.words) ++ key_words key }
        ensures len { self.new.len ≤ self.old.len + 3 }
    {
        match key {
            Key::List(number) => self.put_numbered(b"list", number),
            Key::Piece(segment) => self.put_numbered(b"piece", segment),
            Key::Top(height) => self.put_numbered(b"top", height),
            Key::Down(height, child) => {
                self.put_numbered(b"down", height);
                self.put(Number(u64::from(child)));
            }
        }
    }
}

/// The letter of a column.
pub(crate) fn column_letter(column: Column) -> &'static [u8]
    ensures { result.now ≡ column_word column }
{
    match column {
        Column::Structure => b"s".as_slice(),
        Column::NodeAttr => b"n".as_slice(),
        Column::EdgeAttr => b"e".as_slice(),
        Column::Transient => b"t".as_slice(),
    }
}
