//! Laws of answers.

ghost use Rattle.std.specs.Prelude.{◌≡◌, List, IsPermutation, filter, map};
ghost use Rattle.value.specs.Datum as value;
ghost use Rattle.value.specs.Names.{Name};
ghost use Rattle.expr.specs.BoundQuery.{BoundQuery};
ghost use Rattle.tuples.specs.Combinations.{Combination};
ghost use Rattle.tuples.specs.Sinks.{wants_all};
ghost use Rattle.tuples.specs.World.{World, combination_at};
ghost use Rattle.tuples.specs.declared.slot.Slot.{Slot};
ghost use Rattle.row_marks.specs.Marked.{keeps_row};
ghost use Rattle.report.specs.Answer.{answer, answer_over};
ghost use Rattle.report.specs.Restricted.{SeesSame};

/// The order of the combinations makes no difference to the answer.
#[tactic(auto, using(crate::proofs::SameCombinations::same_answer))]
pub fn law_order_of_combinations()
    ensures { (role : Name) (q : BoundQuery) (one other : List Combination) → IsPermutation one other → answer role q one ≡ answer role q other }
{}

/// Rows that the role does not see, and columns that the query does not name, make no difference to the answer.
#[tactic(auto, using(crate::proofs::HiddenRows::same_answer_over))]
pub fn law_hidden_rows()
    ensures { (role : Name) (q : BoundQuery) (one other : List (List value.Row)) → SeesSame q one other → answer_over role q one ≡ answer_over role q other }
{}

/// Rows on which the first fragile conjunct is false or null make no difference to the answer.
#[tactic(auto, using(crate::proofs::Dropped::dropped_rows))]
pub fn law_dropped_rows()
    ensures { (w : World) (all : List (List Slot)) → answer w.role w.query (map (combination_at w.tables) (filter (wants_all (keeps_row w)) all)) ≡ answer w.role w.query (map (combination_at w.tables) all) }
{}
