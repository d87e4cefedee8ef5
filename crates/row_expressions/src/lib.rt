//! Expressions, from tokens: what they are built of, the steps that call no parser of expressions, and the parser.
#![tactic(auto)]

mod build;
mod ends;
mod expressions;
mod heads;
mod leaves;
mod ranges;

pub use build::Located;
pub use expressions::{expression, inner_expression};
pub use leaves::{as_type, constant, dotted, in_list, is_null, plain_column};
