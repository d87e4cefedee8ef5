//! Laws of the trails of a planner.

ghost use Rattle.rewrite.specs.Laws.{PlacesEach, PlansAreAccepted, PlansAreShort, ShapesMeanSame, SimplifiesEach};

use predicates::law_offsets_keep_value;

/// The steps of simplifying lead from the written term of a query, in which an entry comes before the left joined ones and no ON of
/// these names a later entry, to its planning list over the joins in the order of FROM and the left joins that stay such.
pub fn law_simplifies_each()
    ensures { SimplifiesEach }
{}

/// The steps that place the conditions of the planning list lead to the shape of every admissible code.
pub fn law_places_each()
    ensures { PlacesEach }
{}

/// The shape of an admissible code means the same bag of combinations as the written term of the query, in every content of the
/// tables.
pub fn law_shapes_mean_same()
    ensures { ShapesMeanSame }
{
    law_offsets_keep_value();
}

/// The checker accepts the steps that `simplify` and then `place` make, of every query within the limits and every admissible
/// code: at most 5,505 steps.
pub fn law_plans_are_accepted()
    ensures accepted { PlansAreAccepted }
    ensures short { PlansAreShort }
{}
