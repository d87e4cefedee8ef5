//! Laws of every text.

ghost use Rattle.syntax.specs.Literals.{HaveNoNullMarks};
ghost use Rattle.syntax.specs.Tables.{HaveTables};

use crate::parse::law_parsing_is_determined;

/// A string literal is never the two bytes that mean null in a file.
pub fn law_no_null_literal()
    ensures { HaveNoNullMarks }
{}

/// A query has a table in FROM.
pub fn law_queries_have_tables()
    ensures { HaveTables }
{
    law_parsing_is_determined();
}
