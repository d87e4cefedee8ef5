//! Queries.

use crate::expr::{ColumnRef, Expr};
use memory::{Heap, Items, Text};

/// A condition of WHERE, ON or HAVING.
#[derive(Drop)]
pub struct Condition<A: Heap> {
    /// The condition.
    pub predicate: Box<Expr<A>, A>,
    /// The offset of its first token.
    pub offset: u32,
}

/// An output column.
#[derive(Drop)]
pub struct SelectItem<A: Heap> {
    /// Its expression.
    pub value: Box<Expr<A>, A>,
    /// The name after AS.
    pub alias: Option<Text<A>>,
}

/// The selection of a query.
#[derive(Drop)]
pub enum SelectList<A: Heap> {
    /// `*`.
    All { offset: u32 },
    /// The items, as written.
    Items(Items<SelectItem<A>, A>),
}

/// A table of FROM.
#[derive(Drop)]
pub struct TableRef<A: Heap> {
    /// The table's name.
    pub table: Text<A>,
    /// Its alias, if one is written.
    pub alias: Option<Text<A>>,
    /// The offset of the table's name.
    pub offset: u32,
}

/// A table joined to the tables before it.
#[derive(Drop)]
pub enum Join<A: Heap> {
    /// `[INNER] JOIN table ON on`.
    Inner {
        table: TableRef<A>,
        on: Condition<A>,
    },
    /// `CROSS JOIN table`.
    Cross {
        table: TableRef<A>,
    },
}

/// A table of FROM and its joins.
#[derive(Drop)]
pub struct FromItem<A: Heap> {
    /// The first table.
    pub first: TableRef<A>,
    /// The joins, as written.
    pub joins: Items<Join<A>, A>,
}

/// A table that is joined to all tables before it, with a null row where none of its rows fits (PostgreSQL: LEFT JOIN).
#[derive(Drop)]
pub struct LeftJoin<A: Heap> {
    /// The table.
    pub table: TableRef<A>,
    /// Its ON.
    pub on: Condition<A>,
}

/// The output column of a key of ORDER BY.
#[derive(Drop)]
pub enum SortTarget<A: Heap> {
    /// An output column by its heading.
    Heading(Text<A>),
    /// An output column by its position, from 1.
    Position(u64),
}

/// A key of ORDER BY.
#[derive(Drop)]
pub struct SortKey<A: Heap> {
    /// The output column.
    pub target: SortTarget<A>,
    /// True for DESC.
    pub descending: bool,
    /// The offset of its first token.
    pub offset: u32,
}

/// A query (PostgreSQL: SELECT).
#[derive(Drop)]
pub struct Query<A: Heap> {
    /// The selection.
    pub select: SelectList<A>,
    /// FROM.
    pub from: Items<FromItem<A>, A>,
    /// The left joins at its end.
    pub lefts: Items<LeftJoin<A>, A>,
    /// WHERE.
    pub filter: Option<Condition<A>>,
    /// The columns of GROUP BY, none without it.
    pub group_by: Items<ColumnRef<A>, A>,
    /// HAVING.
    pub having: Option<Condition<A>>,
    /// The keys of ORDER BY, none without it.
    pub order_by: Items<SortKey<A>, A>,
    /// LIMIT.
    pub limit: Option<u64>,
}
