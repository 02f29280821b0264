//! The laws of deltas. Each function does nothing: its clause is the law, proved of the definitions.

ghost use Rattle.dg_delta.specs.DeltaLaws.{
  BetweenLeadsOn,
  ReversedLeadsBack,
  ChainsAreExact,
  DecidesEachElement,
  AppliesOneAfterTheOther,
  AppliesEachInTurn,
  SayTheSameAreEqual,
  IsAssociative,
  CanBeCut,
};

/// The exact delta from one set to another, applied to the first, gives the second.
pub fn law_between_leads_from_the_first_to_the_second()
    ensures { BetweenLeadsOn }
{}

/// The exact delta from one set to another, reversed and applied to the second, gives the first.
pub fn law_reversed_between_leads_back()
    ensures { ReversedLeadsBack }
{}

/// Two exact deltas, of which the later begins where the first ends, chain to the exact delta from
/// where the first begins to where the later ends.
pub fn law_chained_exact_deltas_are_exact()
    ensures { ChainsAreExact }
{}

/// After a delta is applied an element is in where the delta puts it in, out where the delta takes
/// it out, and else as it was.
pub fn law_applied_decides_each_element()
    ensures { DecidesEachElement }
{}

/// The composition of two deltas applies as the first and then the later.
pub fn law_composition_applies_as_one_after_the_other()
    ensures { AppliesOneAfterTheOther }
{}

/// The composition of a list of deltas applies as each of them in turn.
pub fn law_composition_of_a_list_applies_as_each_in_turn()
    ensures { AppliesEachInTurn }
{}

/// Two deltas that say the same of every element are equal.
pub fn law_deltas_that_say_the_same_are_equal()
    ensures { SayTheSameAreEqual }
{}

/// Composition is associative.
pub fn law_composed_is_associative()
    ensures { IsAssociative }
{}

/// A list of deltas composes to the same wherever it is cut in two.
pub fn law_composition_can_be_cut_anywhere()
    ensures { CanBeCut }
{}
