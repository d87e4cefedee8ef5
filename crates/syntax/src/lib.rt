//! Queries and schema statements, read from text, and the limits on the size of a query.
#![tactic(auto)]

mod error;
mod laws;
mod limits;
mod parse;

pub use error::ParseError;
pub use laws::{law_no_null_literal, law_queries_have_tables};
pub use parse::{law_parsing_is_determined, parse_query, parse_schema, parse_statement};
pub use row_tokens::tokenize as tokens;
