//! Laws of every condition.

ghost use Rattle.predicates.specs.Same.{SameIsEqual};
ghost use Rattle.predicates.specs.NullRows.{NullRowsAreRejected};
ghost use Rattle.predicates.specs.Closed.{FoldsWhatIsClosed};
ghost use Rattle.predicates.specs.Laws.{BothHold, EqualityChains, EqualityTurns, FactoringKeeps, FoldingKeepsValue, InwardKeepsTruth, NeverTrue, NotNullKeeps, OffsetsKeepValue, PartsHold};

/// A movable expression without offsets is movable, and has the same value on every row for every role.
pub fn law_offsets_keep_value()
    ensures { OffsetsKeepValue }
{}

/// With NOT carried inward a movable expression is movable, and any has the same truth value on every row for every role.
pub fn law_inward_keeps_truth()
    ensures { InwardKeepsTruth }
{}

/// With its literals folded a movable expression is movable, and has the same value on every row for every role.
pub fn law_folding_keeps_value()
    ensures { FoldingKeepsValue }
{}

/// The test of two expressions is true exactly where they are equal.
pub fn law_same_is_equal()
    ensures { SameIsEqual }
{}

/// A movable part becomes a literal exactly when it has no column, no CURRENT_USER and no aggregate.
pub fn law_folds_what_is_closed()
    ensures { FoldsWhatIsClosed }
{}

/// One AND of two movable conditions is movable, and one of any holds on the rows and for the roles for which both do.
pub fn law_both_hold()
    ensures { BothHold }
{}

/// The two parts of a movable condition are movable, and any condition holds on the rows and for the roles for which both do.
pub fn law_parts_hold()
    ensures { PartsHold }
{}

/// A movable condition with a common first member taken out is movable, and holds on the same rows for the same roles.
pub fn law_factoring_keeps_rows()
    ensures { FactoringKeeps }
{}

/// An equality holds where that with its sides exchanged does.
pub fn law_equality_turns()
    ensures { EqualityTurns }
{}

/// Two equalities that hold with a side in common make a third that holds.
pub fn law_equalities_chain()
    ensures { EqualityChains }
{}

/// `x IS NOT NULL` in place of `x = x` is movable, and holds on the same rows for the same roles.
pub fn law_not_null_keeps_rows()
    ensures { NotNullKeeps }
{}

/// The literals FALSE and NULL hold on no row.
pub fn law_never_true()
    ensures { NeverTrue }
{}

/// A comparison with a column as one side is not true where the column is null, and neither are IS NOT NULL and IN of it.
pub fn law_null_rows_are_rejected()
    ensures { NullRowsAreRejected }
{}
