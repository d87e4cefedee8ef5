//! Queries whose columns are found.

use crate::bound::{BoundExpr, ColumnId};
use memory::{Heap, Items, Text};

/// An output column.
#[derive(Drop)]
pub struct BoundItem<A: Heap> {
    /// Its heading.
    pub heading: Text<A>,
    /// Its value.
    pub value: Box<BoundExpr<A>, A>,
}

/// A condition, if there is one.
pub type BoundCondition<A> = Option<Box<BoundExpr<A>, A>>;

/// A key of ORDER BY.
#[derive(Clone, Copy, Debug, PartialEq, Eq)]
pub struct OutputKey {
    /// The index of its output column.
    pub index: usize,
    /// True for DESC.
    pub descending: bool,
}

/// A query whose columns are found.
#[derive(Drop)]
pub struct BoundQuery<A: Heap> {
    /// The output columns.
    pub items: Items<BoundItem<A>, A>,
    /// The ON of each entry.
    pub ons: Items<BoundCondition<A>, A>,
    /// How many of the entries, the last ones, are left joined.
    pub left_count: usize,
    /// WHERE.
    pub filter: BoundCondition<A>,
    /// The columns of GROUP BY, none without it.
    pub group_by: Items<ColumnId, A>,
    /// HAVING.
    pub having: BoundCondition<A>,
    /// True where its rows are those of groups: it has GROUP BY, HAVING, or an aggregate in an item.
    pub is_grouped: bool,
    /// The keys of ORDER BY, none without it.
    pub order_by: Items<OutputKey, A>,
    /// LIMIT.
    pub limit: Option<u64>,
}
