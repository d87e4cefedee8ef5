//! The values of expressions on the groups of an admitted query.

ghost use Rattle.group_laws.specs.GroupValues.{GroupItemsAreOfTypes, GroupValuesAreOfTypes, HavingIsCondition};

use crate::offsets::law_aggregates_have_offsets;

/// Over a database that is well formed, as each is that statements and loads make, an expression with a type among the
/// entries of an admitted query, whose aggregates are the query's, gives on the row of every group a value of its type, or
/// null, or a fault. So the null that an operator gives for operands of wrong types is never met on groups either.
pub fn law_group_values()
    ensures values { GroupValuesAreOfTypes }
    // So do the items of the query.
    ensures items { GroupItemsAreOfTypes }
    // HAVING gives a truth value, null or a fault.
    ensures having { HavingIsCondition }
{
    law_aggregates_have_offsets();
}
