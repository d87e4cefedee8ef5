//! Roles, tables, policies and indexes.

ghost use Rattle.std.specs.Prelude.{◌≡◌, map};
ghost use Rattle.value.specs.Columns.{columns_of};
ghost use Rattle.row_objects.specs.View.{grants_of, index_of, policies_of, table_entry, table_of};

use crate::grants::Grant;
use expr::MovableExpr;
use memory::{Heap, Items, Text};
use value::Column;

/// A role, whose name is its key (PostgreSQL: Database Roles).
#[derive(Drop)]
pub struct Role {
    /// True for a superuser.
    pub superuser: bool,
    /// True where row security does not act on its queries.
    pub bypass_rls: bool,
}

/// A policy for some roles (PostgreSQL: CREATE POLICY).
#[derive(Drop)]
pub struct Policy<A: Heap> {
    /// Its name.
    pub name: Text<A>,
    /// True for a restrictive policy.
    pub restrictive: bool,
    /// The roles to which it applies, `public` for all.
    pub roles: Items<Text<A>, A>,
    /// The condition of USING, over the table's own columns.
    pub predicate: MovableExpr<A>,
}

/// An index on a column (PostgreSQL: CREATE INDEX).
#[derive(Drop)]
pub struct Index<A: Heap> {
    /// Its name.
    pub name: Text<A>,
    /// Its column, by the index in the table.
    pub column: usize,
}

/// A table, whose name is its key.
#[derive(Drop)]
pub struct TableDef<A: Heap> {
    /// The columns, in order.
    pub columns: Items<Column<A>, A>,
    /// The role that owns it.
    pub owner: Text<A>,
    /// True where row security is enabled.
    pub row_security: bool,
    /// True where row security acts on the owner too.
    pub forced: bool,
    /// The policies, in order of creation.
    pub policies: Items<Policy<A>, A>,
    /// The grants, none twice.
    pub grants: Items<Grant<A>, A>,
    /// The indexes, in order of creation.
    pub indexes: Items<Index<A>, A>,
}

/// A table that a catalogue lends.
#[derive(Clone, Copy)]
pub struct Table<'c, A: Heap> {
    name: &'c str,
    parts: &'c TableDef<A>,
}

impl<'c, A: Heap> Table<'c, A> {
    /// A table of its name and the rest of it.
    pub fn new(name: &'c str, parts: &'c TableDef<A>) -> Table<'c, A>
        ensures { table_of result ≡ table_entry (name.now, parts.now) }
    {
        Table { name, parts }
    }

    /// The name of the table.
    pub fn name(self) -> &'c str
        ensures { result.now ≡ (table_of self.entry).name }
    {
        self.name
    }

    /// The columns, in order.
    pub fn columns(self) -> &'c [Column<A>]
        ensures { columns_of result.now ≡ (table_of self.entry).columns }
    {
        self.parts.columns.as_slice()
    }

    /// The role that owns it.
    pub fn owner(self) -> &'c str
        ensures { result.now ≡ (table_of self.entry).owner }
    {
        self.parts.owner.as_str()
    }

    /// True where row security is enabled.
    pub fn row_security(self) -> bool
        ensures { result ≡ (table_of self.entry).row_security }
    {
        self.parts.row_security
    }

    /// True where row security acts on the owner too.
    pub fn forced(self) -> bool
        ensures { result ≡ (table_of self.entry).forced }
    {
        self.parts.forced
    }

    /// The policies, in order of creation.
    pub fn policies(self) -> &'c [Policy<A>]
        ensures { policies_of result.now ≡ (table_of self.entry).policies }
    {
        self.parts.policies.as_slice()
    }

    /// The grants, none twice.
    pub fn grants(self) -> &'c [Grant<A>]
        ensures { grants_of result.now ≡ (table_of self.entry).grants }
    {
        self.parts.grants.as_slice()
    }

    /// The indexes, in order of creation.
    pub fn indexes(self) -> &'c [Index<A>]
        ensures { map (λ i. index_of i) result.now ≡ (table_of self.entry).indexes }
    {
        self.parts.indexes.as_slice()
    }
}
