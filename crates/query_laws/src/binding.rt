//! The order in which a query is bound.

ghost use Rattle.query_laws.specs.InOrder.{ArmsInOrder, EntriesInOrder, MembersInOrder, OnsInOrder};

/// The parts of a query are bound one after another, in written order: each list is that of its elements bound, or the
/// error of the first element that has one, as its definition says of items, of the columns of GROUP BY and of the keys
/// of ORDER BY. Each entry of FROM is that of its table, after the entries before it.
pub fn law_bound_in_order()
    ensures members { MembersInOrder }
    ensures arms { ArmsInOrder }
    ensures ons { OnsInOrder }
    ensures entries { EntriesInOrder }
{}
