//! The left joins of a query.

ghost use Rattle.query_laws.specs.LeftJoins.{LeftJoinsAreBound};

/// Of a query that is bound, with a table in FROM, the entries of left joins come after others, and each has an ON, which
/// cannot fault and names columns of its entry and of those before it alone.
pub fn law_left_joins()
    ensures { LeftJoinsAreBound }
{}
