//! Laws of combinations.

ghost use Rattle.std.specs.Prelude.{◌≡◌, [], List};
ghost use Rattle.value.specs.Datum as value;
ghost use Rattle.value.specs.Names.{Name};
ghost use Rattle.expr.specs.BoundQuery.{BoundQuery};
ghost use Rattle.expr.specs.Conjuncts.{left_ons};
ghost use Rattle.tuples.specs.Combinations.{combinations};
ghost use Rattle.tuples.specs.LeftCombinations.{left_combinations};

/// Without left joins the combinations of a query are all those of the rows of its entries.
#[tactic(auto, using(crate::proofs::NoLefts::no_lefts))]
pub fn law_no_lefts()
    ensures ons { (q : BoundQuery) → q.left_count ≡ 0 → left_ons q ≡ [] }
    ensures combinations { (role : Name) (tables : List (List value.Row)) → left_combinations role [] tables ≡ combinations tables }
{}
