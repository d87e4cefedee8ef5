//! The laws of conditions with a text.

ghost use Rattle.plan_laws.specs.Laws.{AdmittedAreSaid, AdmittedLeftsAreSaid, PlanningListsAreSaid};

/// Each condition of a planning list has a text that is read back, where each movable conjunct of its query has one, and each ON of
/// a left joined entry.
pub fn law_planning_lists_are_said()
    ensures { PlanningListsAreSaid }
{}

/// Each movable conjunct of a query that is admitted, and each ON of a left joined entry, has a text that is read back, where the names
/// of columns are words of the grammar.
pub fn law_admitted_are_said()
    ensures conjuncts { AdmittedAreSaid }
    ensures lefts { AdmittedLeftsAreSaid }
{}
