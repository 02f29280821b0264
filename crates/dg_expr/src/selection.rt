//! The elements that an expression chooses, by one walk over the sets of its instants.

ghost use Rattle.std.specs.Prelude.{◌≡◌, ◌≤◌, ◌<◌, ℕ, List, [], ◌∷◌, map, length, take, ◌++◌, if◌then◌else◌, OnOk, IfOk, IfSome, IfNone, IsTrue};
ghost use Rattle.std.specs.List.{AllByRecursion};
ghost use Rattle.dg_graph.specs.declared.element.Element.{Element};
ghost use Rattle.dg_graph.specs.Elements.{IsSet};
ghost use Rattle.dg_expr.specs.declared.expression.TheConstants.{EXPRESSION_TIMES_MAX, EXPRESSION_WORDS_MAX};
ghost use Rattle.dg_expr.specs.Chosen.{chosen, truths};
ghost use Rattle.dg_expr.specs.Expressions.{are_expressions, instants_of, is_expression, words_of};
ghost use Rattle.dg_expr.specs.Rests.{begins, past, is_chosen, lesser, selected, true_at, IsLeast};

use crate::expression::{EXPRESSION_TIMES_MAX, EXPRESSION_WORDS_MAX, Expr, Word};
use crate::rests::Rest;
use dg_graph::Element;
use dg_set::Set;
use std::alloc::{AllocError, Global};

/// Which of the sets have an element.
type There = [bool; EXPRESSION_TIMES_MAX];

/// The elements that the expression chooses from the graphs as of its instants, which are given in the
/// order of `instants`: those that are in one of them at least, and of which it holds. One walk goes
/// through all sets together. An `Err` says that memory ran out.
pub fn select(alloc: Global, expr: &Expr, sets: &[Set]) -> Result<Set, AllocError>
    requires expression { IsTrue (is_expression (words_of expr.now)) }
    requires words { expr.now.count ≤ EXPRESSION_WORDS_MAX }
    requires sets { length sets.now ≡ length (instants_of (words_of expr.now)) }
    ensures { IfOk result (λ set. (graph : ℕ → List Element) → sets.now ≡ map graph (instants_of (words_of expr.now))
        → set ≡ chosen (words_of expr.now) graph) }
{
    let placed = expr.placed(&expr.instants());
    let items = select_placed(alloc, &placed.words[..placed.count as usize], sets)?;
    Ok(Set::from_rising(items))
}

// The elements of which the words hold, with an instant's place true where the set there has the element.
fn select_placed(alloc: Global, words: &[Word], sets: &[Set]) -> Result<Vec<Element>, AllocError>
    requires words { IsTrue (are_expressions 1 words.now) }
    requires sets { length sets.now ≤ EXPRESSION_TIMES_MAX }
    ensures value { IfOk result (λ out. out.items ≡ selected words.now sets.now) }
    ensures set { IfOk result (λ out. IsSet out.items) }
{
    let mut rests = rests_of(alloc, sets)?;
    select_rests(alloc, words, &mut rests)
}

// The same, from what is left of the sets.
fn select_rests(
    alloc: Global,
    words: &[Word],
    rests: &mut [Rest],
) -> Result<Vec<Element>, AllocError>
    requires words { IsTrue (are_expressions 1 words.now) }
    requires few { length rests.old ≤ EXPRESSION_TIMES_MAX }
    requires sets { AllByRecursion IsSet rests.old }
    ensures value { IfOk result (λ out. out.items ≡ selected words.now rests.old) }
    ensures set { IfOk result (λ out. IsSet out.items) }
{
    let mut out = Vec::new(alloc);
    let count = rests.len();
    let mut known = Known::of_none(words, count);
    while let Some(x) = least(rests) {
        let there = skip_all(rests, &x);
        let holds = known.holds_at(words, count, there);
        push_if(&mut out, x, holds)?;
    }
    Ok(out)
}

// What the words hold of the elements that are in the same sets as the last one: many in a row are.
#[derive(Drop)]
struct Known {
    there: There,
    holds: bool,
}

impl Known {
    // What they hold of an element that is in no set.
    fn of_none(words: &[Word], sets: usize) -> Known
        requires words { IsTrue (are_expressions 1 words.now) }
        requires sets { sets ≤ EXPRESSION_TIMES_MAX }
        ensures known { result.holds ≡ is_chosen words.now (take sets result.there) }
    {
        let there = [false; EXPRESSION_TIMES_MAX];
        Known {
            there,
            holds: is_chosen(words, &there[..sets]),
        }
    }

    // What they hold of an element that is in these sets.
    fn holds_at(&mut self, words: &[Word], sets: usize, there: There) -> bool
        requires words { IsTrue (are_expressions 1 words.now) }
        requires sets { sets ≤ EXPRESSION_TIMES_MAX }
        requires known { self.old.holds ≡ is_chosen words.now (take sets self.old.there) }
        ensures holds { result ≡ is_chosen words.now (take sets there) }
        ensures known { self.new.holds ≡ is_chosen words.now (take sets self.new.there) }
    {
        if is_same(&there, &self.there) {
            return self.holds;
        }
        self.there = there;
        self.holds = is_chosen(words, &there[..sets]);
        self.holds
    }
}

// Whether the same sets have an element.
fn is_same(a: &There, b: &There) -> bool
    ensures { IsTrue result → a.now ≡ b.now }
{
    for i in 0..EXPRESSION_TIMES_MAX {
        if a[i] != b[i] {
            return false;
        }
    }
    true
}

// Adds the element where `holds` is true.
fn push_if(out: &mut Vec<Element>, x: Element, holds: bool) -> Result<(), AllocError>
    ensures { OnOk result (out.new.items ≡ (if holds then out.old.items ++ x ∷ [] else out.old.items)) }
{
    if holds {
        out.push(x)?;
    }
    Ok(())
}

// All of each set.
fn rests_of<'a>(alloc: Global, sets: &'a [Set]) -> Result<Vec<Rest<'a>>, AllocError>
    ensures value { IfOk result (λ rests. rests.items ≡ sets.now) }
    ensures sets { IfOk result (λ rests. AllByRecursion IsSet rests.items) }
{
    let mut rests = Vec::with_capacity(alloc, sets.len())?;
    for set in sets {
        rests.push(Rest::of(set))?;
    }
    Ok(rests)
}

// Whether the expression that the words are is true, where `there` says what is true at each place.
fn is_chosen(words: &[Word], there: &[bool]) -> bool
    requires { IsTrue (are_expressions 1 words.now) }
    ensures { result ≡ is_chosen words.now there.now }
{
    truth(words, there).0
}

// Whether the first expression that the words are is true, where `there` says what is true at each place;
// and the words behind it.
fn truth<'a>(words: &'a [Word], there: &[bool]) -> (bool, &'a [Word])
    requires { 0 < length (truths (true_at there.now) words.now) }
    ensures value { truths (true_at there.now) words.now ≡ result.0 ∷ truths (true_at there.now) result.1.now }
    ensures shorter { length result.1.now < length words.now }
{
    let Some((word, rest)) = words.split_first() else {
        return (false, words);
    };
    match word {
        Word::Time(place) => (is_true_at(there, *place), rest),
        Word::Not => {
            let (a, rest) = truth(rest, there);
            (!a, rest)
        }
        Word::And => {
            let (a, rest) = truth(rest, there);
            let (b, rest) = truth(rest, there);
            (a && b, rest)
        }
        Word::Or => {
            let (a, rest) = truth(rest, there);
            let (b, rest) = truth(rest, there);
            (a || b, rest)
        }
    }
}

fn is_true_at(there: &[bool], place: u64) -> bool
    ensures { result ≡ true_at there.now place }
{
    match there.get(place as usize) {
        Some(is_there) => *is_there,
        None => false,
    }
}

// The least element that is left in any of the sets.
fn least(rests: &[Rest]) -> Option<Element>
    ensures { IsLeast result rests.now }
{
    let mut least = None;
    for rest in rests {
        least = lesser(least, rest.first());
    }
    least
}

// The lesser of two elements, where there are such.
fn lesser(a: Option<Element>, b: Option<Element>) -> Option<Element>
    ensures { result ≡ lesser a b }
{
    match (a, b) {
        (None, b) => b,
        (a, None) => a,
        (Some(x), Some(y)) => if y < x { Some(y) } else { Some(x) },
    }
}

// Goes past the element in each set that begins with it, and answers which do.
fn skip_all(rests: &mut [Rest], x: &Element) -> There
    requires { length rests.old ≤ EXPRESSION_TIMES_MAX }
    ensures after { rests.new ≡ map (past x.now) rests.old }
    ensures there { take (length rests.old) result ≡ map (begins x.now) rests.old }
{
    let mut there = [false; EXPRESSION_TIMES_MAX];
    for i in 0..rests.len() {
        there[i] = rests[i].skip(x);
    }
    there
}
