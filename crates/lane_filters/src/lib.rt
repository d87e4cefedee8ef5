//! Conditions on the rows of one table, evaluated for all rows at once: comparisons of bigint columns with bigint literals or
//! with each other, BETWEEN of these, equality of text columns with texts or CURRENT_USER, IN of texts, IS [NOT] NULL of a column, and
//! AND, OR and NOT of such conditions; and which rows a role sees.
#![tactic(auto)]

mod filters;
mod leaves;
mod operand;
mod seen;
mod sizes;
mod texts;
mod truths;

pub use filters::truths_of;
pub use seen::seen_rows;
pub use truths::Truths;
