//! Laws of the checker.

ghost use Rattle.trailcheck.specs.SameTerm.{SameTermIsEqual};
ghost use Rattle.trailcheck.specs.Verdicts.{AcceptedMeansSame};

/// The test of two terms is true exactly where they are equal.
pub fn law_same_term_is_equal()
    ensures { SameTermIsEqual }
{}

/// The written term and the shape of the code of an accepted trail mean one bag of combinations in every content of the
/// tables, if no condition of the written term can fault.
pub fn law_accepted_means_same()
    ensures { AcceptedMeansSame }
{}
