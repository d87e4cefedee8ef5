//! What the order of an answer is.

ghost use Rattle.std.specs.Prelude.{◌≡◌, ◌↔◌, List, IsPermutation, IsSorted};
ghost use Rattle.bags.specs.Sorting.{sorted_by};
ghost use Rattle.value.specs.Datum as value;
ghost use Rattle.expr.specs.declared.query.OutputKey as key;
ghost use Rattle.answer_rows.specs.Ordered.{output_cmp};

/// Rows in the order of an answer are the rows, each as often, in the order of the keys and then of all columns; and no other list is.
pub fn law_ordered_rows()
    ensures { (keys : List key.OutputKey) (rows ys : List value.Row) → (ys ≡ sorted_by (output_cmp keys) rows) ↔ (IsPermutation rows ys × IsSorted (output_cmp keys) ys) }
{}
