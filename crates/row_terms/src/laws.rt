//! Laws of terms.

ghost use Rattle.row_terms.specs.Laws.{WrittenMeans};

use predicates::law_offsets_keep_value;

/// The combinations of the written term are those of the rows that the role sees on which every movable conjunct is true,
/// in the order of the nested comprehension.
pub fn law_written_means()
    ensures { WrittenMeans }
{
    law_offsets_keep_value();
}
