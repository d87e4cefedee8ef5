//! The texts of expressions in a plan: their reading, the writing of their parts, and the laws of both.
#![tactic(auto)]

mod expressions;
mod laws;
mod reading;
mod writing;

pub use expressions::push_expr;
pub use laws::{law_queries_fit, law_reading_is_determined, law_texts_read_back};
pub use reading::{read_expr, read_whole};
pub use writing::{not_of, push_column, push_literal, push_literals, sign_of};
