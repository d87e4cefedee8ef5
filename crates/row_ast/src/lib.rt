//! The trees of queries and schema statements, as they are written. Names are folded to lower case; an offset counts
//! bytes of the text, from 0.
#![tactic(auto)]

mod expr;
mod parts;
mod query;
mod statement;

pub use expr::{Arm, ColumnRef, Expr};
pub use parts::column_in;
pub use query::{
    Condition, FromItem, Join, LeftJoin, Query, SelectItem, SelectList, SortKey, SortTarget,
    TableRef,
};
pub use statement::{CreatePolicy, Grant, RowSecurity, Statement};
