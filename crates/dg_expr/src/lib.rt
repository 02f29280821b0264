//! Expressions over instants: their text, the instants in them, and the elements that one chooses from
//! the graphs as of these instants. docs/MODEL.md has the definitions.
#![tactic(auto)]

mod expression;
mod laws;
mod reading;
mod rests;
mod selection;

pub use expression::{EXPRESSION_TIMES_MAX, EXPRESSION_WORDS_MAX, Expr, Instants, Word};
pub use laws::law_chosen_elements_are_shown;
pub use reading::{expression_prefix, read_expr};
pub use selection::select;
