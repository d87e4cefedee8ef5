//! The values of a query that is admitted.

ghost use Rattle.query_laws.specs.Values.{CombinationsAreOfRows, ValuesAreOfTypes};

/// Over a database that is well formed, as each is that statements and loads make, an expression with a type among the
/// entries of an admitted query, as each of its parts outside groups has, gives on every combination of rows a value of its
/// type, or null, or a fault. So the null that an operator gives for operands of wrong types is never met.
pub fn law_admitted_values()
    ensures { ValuesAreOfTypes }
{}

/// Each combination of rows of the tables, left joins too, is of rows of them and null rows, as the law of values asks.
pub fn law_combinations_are_of_rows()
    ensures { CombinationsAreOfRows }
{}
