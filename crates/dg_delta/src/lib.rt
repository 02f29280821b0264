//! Deltas: what turns one set of elements into another, as the elements to take out and those to put
//! in. A delta is found between two sets, applied, composed with a later one, and reversed, each by
//! linear merges. docs/MODEL.md has the definitions.
#![tactic(auto)]

mod delta;
mod laws;
mod stack;

pub use delta::Delta;
pub use dg_set::{Element, Set};
pub use laws::{
    law_applied_decides_each_element, law_between_leads_from_the_first_to_the_second,
    law_chained_exact_deltas_are_exact, law_composed_is_associative,
    law_composition_applies_as_one_after_the_other, law_composition_can_be_cut_anywhere,
    law_composition_of_a_list_applies_as_each_in_turn, law_deltas_that_say_the_same_are_equal,
    law_reversed_between_leads_back,
};
pub use stack::{DeltaStack, Height};
