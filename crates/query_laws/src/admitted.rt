//! What holds of a query that is admitted.

ghost use Rattle.query_laws.specs.Admitted.{AggregatesArePlaced, NamedAreGranted, TablesAreGranted};
ghost use Rattle.query_laws.specs.Typed.{AdmittedAreTyped};

/// Of a query that is admitted each column that it names, in any clause, is a column of the table of an entry, on which the
/// role has SELECT; on a part of the table of each entry it has SELECT; and its aggregates are where they may be: none in
/// ON, WHERE or another aggregate, and beside them no column that GROUP BY does not have. So where a definition is total by
/// a default, for a column that is not there or an aggregate that has no value, the default is never reached.
pub fn law_admitted()
    ensures granted { NamedAreGranted }
    ensures tables { TablesAreGranted }
    ensures placed { AggregatesArePlaced }
    // Its items have types by the rules, and its conditions that of a condition.
    ensures typed { AdmittedAreTyped }
{}
