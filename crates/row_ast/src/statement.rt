//! Schema statements.

use crate::expr::Expr;
use memory::{Heap, Items, Text};
use value::Column;

/// A change of a table's row security (PostgreSQL: ALTER TABLE).
#[derive(Clone, Copy, Debug, PartialEq, Eq)]
pub enum RowSecurity {
    /// `ENABLE`.
    Enable,
    /// `DISABLE`.
    Disable,
    /// `FORCE`: for the owner too.
    Force,
    /// `NO FORCE`.
    NoForce,
}

/// The privileges of `GRANT SELECT` or `REVOKE SELECT`.
#[derive(Drop)]
pub struct Grant<A: Heap> {
    /// The columns; without a list the whole table.
    pub columns: Option<Items<Text<A>, A>>,
    /// The table's name.
    pub table: Text<A>,
    /// The roles, `public` for all.
    pub roles: Items<Text<A>, A>,
}

/// A policy (PostgreSQL: CREATE POLICY).
#[derive(Drop)]
pub struct CreatePolicy<A: Heap> {
    /// Its name.
    pub name: Text<A>,
    /// The table's name.
    pub table: Text<A>,
    /// True for `AS RESTRICTIVE`.
    pub restrictive: bool,
    /// The roles to which it applies, `public` for all.
    pub roles: Items<Text<A>, A>,
    /// The condition of USING.
    pub predicate: Box<Expr<A>, A>,
}

/// A schema statement.
#[derive(Drop)]
pub enum Statement<A: Heap> {
    /// `CREATE ROLE name [SUPERUSER] [BYPASSRLS]`.
    CreateRole {
        name: Text<A>,
        superuser: bool,
        bypass_rls: bool,
    },
    /// `GRANT group TO member`.
    GrantRole {
        group: Text<A>,
        member: Text<A>,
    },
    /// `REVOKE group FROM member`.
    RevokeRole {
        group: Text<A>,
        member: Text<A>,
    },
    /// `CREATE TABLE name (column type [NOT NULL], ..)`.
    CreateTable {
        name: Text<A>,
        columns: Items<Column<A>, A>,
    },
    /// `ALTER TABLE table OWNER TO owner`.
    SetOwner {
        table: Text<A>,
        owner: Text<A>,
    },
    /// `ALTER TABLE table ENABLE ROW LEVEL SECURITY` and the like.
    SetRowSecurity {
        table: Text<A>,
        setting: RowSecurity,
    },
    /// `CREATE INDEX name ON table (column)`.
    CreateIndex {
        name: Text<A>,
        table: Text<A>,
        column: Text<A>,
    },
    /// `GRANT SELECT ..`.
    GrantSelect(Grant<A>),
    /// `REVOKE SELECT ..`.
    RevokeSelect(Grant<A>),
    /// `CREATE POLICY ..`.
    CreatePolicy(CreatePolicy<A>),
    /// `DROP POLICY name ON table`.
    DropPolicy {
        name: Text<A>,
        table: Text<A>,
    },
}
