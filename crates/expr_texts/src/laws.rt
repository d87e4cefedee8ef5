//! The laws of the texts of expressions.

ghost use Rattle.expr_texts.specs.Filters.{IsDetermined, QueriesFit, TextsReadBack};

/// The text of an expression is read as the expression.
pub fn law_texts_read_back()
    ensures { TextsReadBack }
{}

/// A text is read as the expression with which the grammar derives it, if there is one.
pub fn law_reading_is_determined()
    ensures { IsDetermined }
{}

/// An expression of a query's text is written within the levels of a filter.
pub fn law_queries_fit()
    ensures { QueriesFit }
{}
