//! Expressions from their text.

ghost use Rattle.std.specs.Prelude.{◌≡◌, ◌+◌, ◌<◌, ◌≤◌, ◌↔◌, ℕ, [], ◌∷◌, Some, IfErr, IfOk, IfSome, IsTrue, take};
ghost use Rattle.std.specs.List.{Contains};
ghost use Rattle.std.specs.Option.{option_map};
ghost use Rattle.std.specs.Result.{result_ok};
ghost use Rattle.dg_grammar.specs.Prefixes.{IsLongestPrefix};
ghost use Rattle.dg_expr.specs.declared.expression.Word.{Word};
ghost use Rattle.dg_expr.specs.ExpressionGrammar.{IsExpressionText, expression_of, word_of};
ghost use Rattle.dg_expr.specs.Expressions.{expr_of, is_expression, words_of};
ghost use Rattle.dg_expr.specs.Owing.{Completes, MayCome, has_room, operators_of, owing_after, start};

use crate::expression::{EXPRESSION_TIMES_MAX, EXPRESSION_WORDS_MAX, Expr, Word};
use dg_grammar::{Prefix, Words, has_space_at, is, number, number_prefix, words_prefix};
use dg_graph::TIME_MAX;

/// The operators, that of one expression first.
const OPERATORS: &[&[u8]] = &[b"not", b"and", b"or"];

const OPERATOR_OF_ONE: &[&[u8]] = &[b"not"];

const NO_OPERATOR: &[&[u8]] = &[];

/// Every expression has fewer bytes: at most 31 words, of at most 20 bytes and a space each.
const EXPRESSION_BYTES: usize = 651;

/// The expression that the text is. An `Err` gives the length of the longest prefix of the text that is a prefix of some
/// expression. It takes no memory.
pub fn read_expr(text: &[u8]) -> Result<Expr, u32>
    ensures expression { result_ok result ≡ option_map expr_of (expression_of text.now) }
    ensures range { IfOk result (λ e. IsTrue (is_expression (words_of e)) × (e.count ≤ EXPRESSION_WORDS_MAX)) }
    ensures leaves { IfErr result (λ n. IsLongestPrefix IsExpressionText text.now n) }
{
    match expression(text) {
        Some(expr) => Ok(expr),
        None => Err(expression_prefix(text) as u32),
    }
}

/// The length of the longest prefix of the text that is a prefix of some expression.
pub fn expression_prefix(text: &[u8]) -> usize
    ensures prefix { IsLongestPrefix IsExpressionText text.now result }
    ensures short { result ≤ EXPRESSION_BYTES }
{
    Owing::start().prefix(text)
}

// The expression that the text is.
fn expression(text: &[u8]) -> Option<Expr>
    ensures expression { result ≡ option_map expr_of (expression_of text.now) }
    ensures range { IfSome result (λ e. IsTrue (is_expression (words_of e)) × (e.count ≤ EXPRESSION_WORDS_MAX)) }
{
    let mut words = [Word::Time(0); EXPRESSION_WORDS_MAX];
    let mut owing = Owing::start();
    let mut texts = Words::of(text);
    while let Some(word_text) = texts.next() {
        let Some(word) = word(word_text) else {
            return None;
        };
        if owing.expressions == 0 {
            return None;
        }
        let next = owing.after(word);
        if !next.has_room() {
            return None;
        }
        words[owing.words] = word;
        owing = next;
    }
    if owing.expressions > 0 {
        return None;
    }
    Some(Expr {
        words,
        count: owing.words as u8,
    })
}

// The word that the text is: an operator, or an instant.
fn word(text: &[u8]) -> Option<Word>
    ensures { result ≡ word_of text.now }
{
    if is(text, b"not") {
        Some(Word::Not)
    } else if is(text, b"and") {
        Some(Word::And)
    } else if is(text, b"or") {
        Some(Word::Or)
    } else {
        match number(text, 0, TIME_MAX) {
            Some(t) => Some(Word::Time(t)),
            None => None,
        }
    }
}

/// What an expression owes behind the words that are read of it: so many expressions, one after another. So many instants
/// and words are read.
#[derive(Clone, Copy)]
pub(crate) struct Owing {
    expressions: usize,
    times: usize,
    words: usize,
}

impl Owing {
    // Before the first word.
    fn start() -> Owing
        ensures { result ≡ start }
    {
        Owing {
            expressions: 1,
            times: 0,
            words: 0,
        }
    }

    // Whether each expression that is owed may have an instant and a word at least.
    fn has_room(self) -> bool
        requires times { self.times + self.expressions ≤ 100 }
        requires words { self.words + self.expressions ≤ 100 }
        ensures { result ≡ has_room self }
    {
        self.times + self.expressions <= EXPRESSION_TIMES_MAX
            && self.words + self.expressions <= EXPRESSION_WORDS_MAX
    }

    // Behind this word.
    fn after(self, word: Word) -> Owing
        requires owes { 0 < self.expressions }
        requires room { IsTrue (has_room self) }
        ensures { result ≡ owing_after self word }
    {
        match word {
            Word::Time(_) => Owing {
                expressions: self.expressions - 1,
                times: self.times + 1,
                words: self.words + 1,
            },
            Word::Not => Owing {
                expressions: self.expressions,
                times: self.times,
                words: self.words + 1,
            },
            Word::And | Word::Or => Owing {
                expressions: self.expressions + 1,
                times: self.times,
                words: self.words + 1,
            },
        }
    }

    // Behind the word that the text is, which may come here.
    fn after_text(self, text: &[u8]) -> Owing
        requires owes { 0 < self.expressions }
        requires room { IsTrue (has_room self) }
        requires comes { MayCome self text.now }
        ensures { (w : Word) → word_of text.now ≡ Some w → result ≡ owing_after self w }
    {
        match word(text) {
            Some(word) => self.after(word),
            None => self,
        }
    }

    // The longest prefix of the bytes that is a prefix of an operator that may come here.
    fn operator_prefix(self, rest: &[u8]) -> Prefix
        requires owes { 0 < self.expressions }
        requires room { IsTrue (has_room self) }
        ensures longest { IsLongestPrefix (Contains (operators_of self)) rest.now result.bytes }
        ensures whole { IsTrue result.whole ↔ Contains (operators_of self) (take result.bytes rest.now) }
    {
        if self.after(Word::And).has_room() {
            return words_prefix(OPERATORS, rest);
        }
        if self.after(Word::Not).has_room() {
            return words_prefix(OPERATOR_OF_ONE, rest);
        }
        words_prefix(NO_OPERATOR, rest)
    }

    // The longest prefix of the bytes that is a prefix of a word that may come here.
    fn word_prefix(self, rest: &[u8]) -> Prefix
        requires owes { 0 < self.expressions }
        requires room { IsTrue (has_room self) }
        ensures longest { IsLongestPrefix (MayCome self) rest.now result.bytes }
        ensures whole { IsTrue result.whole ↔ MayCome self (take result.bytes rest.now) }
    {
        self.operator_prefix(rest)
            .longer(number_prefix(0, TIME_MAX, rest))
    }

    // The length of the longest prefix of the bytes that is a prefix of a line of words that complete the expression.
    fn prefix(self, rest: &[u8]) -> usize
        requires owes { 0 < self.expressions }
        requires room { IsTrue (has_room self) }
        ensures { IsLongestPrefix (Completes self) rest.now result }
    {
        let begun = self.word_prefix(rest);
        if !begun.whole {
            return begun.bytes;
        }
        if !has_space_at(rest, begun.bytes) {
            return begun.bytes;
        }
        let owing = self.after_text(&rest[..begun.bytes]);
        if owing.expressions == 0 {
            return begun.bytes;
        }
        let from = begun.bytes + 1;
        from + owing.prefix(&rest[from..])
    }
}
