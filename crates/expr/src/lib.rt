//! Expressions and queries whose columns are found: the columns and the aggregates in them, their copies, those that never
//! fault, the first thing that may, the conjuncts of a query, and the codes of its plans.
#![tactic(auto)]

mod aggregates;
mod bound;
mod code;
mod columns;
mod conjuncts;
mod copies;
mod fragile;
mod movable;
mod movable_expr;
mod nodes;
mod offsets;
mod query;

pub use aggregates::{AggregateCall, push_aggregates};
pub use bound::{BoundArm, BoundExpr, ColumnId, is_column};
pub use code::{Access, Code, CodeStep, Method, cmp_codes};
pub use columns::push_columns;
pub use conjuncts::{fragile_conjuncts, movable_conjuncts};
pub use copies::copy_expr;
pub use fragile::first_fragile;
pub use movable::is_movable;
pub use movable_expr::MovableExpr;
pub use nodes::{
    Arms, Copied, Members, arithmetic, arm, between, call, cast, comparison, conjunction,
    disjunction, literal, logical_not, membership, negation, null_check, with_otherwise,
    without_otherwise,
};
pub use offsets::{least, least_of};
pub use query::{BoundCondition, BoundItem, BoundQuery, OutputKey};
