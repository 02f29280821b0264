//! Laws of expressions, the clauses of functions that do nothing.
ghost use Rattle.dg_expr.specs.ExpressionLaws.{ChosenAreShown};

/// What is chosen of graphs in some columns is in these columns. Does nothing.
pub fn law_chosen_elements_are_shown()
    ensures { ChosenAreShown }
{}
