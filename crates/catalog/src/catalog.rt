//! The sets of the catalogue, and the search in them.

ghost use Rattle.std.specs.Prelude.{◌≡◌, ◌<◌, length, IfOk, IfSome, option_map, slice_get};
ghost use Rattle.std.specs.List.{list_all};
ghost use Rattle.row_objects.specs.Policies as policies;
ghost use Rattle.row_objects.specs.View.{table_of};
ghost use Rattle.catalog.specs.Reached.{AreMarksOf};
ghost use Rattle.catalog.specs.Catalog.{at_first, belongs, bypasses_rls, is_index, is_known, is_role, is_superuser, is_table, owns, table_named, table_index};

use memory::{Heap, Text};
use row_objects::{
    ByName, Membership, Role, RoleMarks, Table, TableDef, any_index, belongs_by, has_policy_room,
    is_reached, reached_by,
};
use std::alloc::AllocError;
use std::marker::Model;

/// Roles, memberships and tables, each in order of creation, and the number of accepted statements.
#[derive(Drop)]
pub struct Catalog<A: Heap> {
    pub(crate) alloc: A,
    pub(crate) roles: ByName<Role, A>,
    pub(crate) memberships: Vec<Membership<A>, A>,
    pub(crate) tables: ByName<TableDef<A>, A>,
    change_number: u64,
}

impl<A: Heap> Model for Catalog<A> {
    ghost use Rattle.std.specs.Prelude.{◌≡◌, ◌≤◌, ℕ, length, true};
    ghost use Rattle.std.specs.List.{list_all};
    ghost use Rattle.row_objects.specs.Memberships.{most_roles};
    ghost use Rattle.row_objects.specs.Reached.{is_of_roles};
    ghost use Rattle.row_objects.specs.MembershipView.{memberships_of};
    ghost use Rattle.catalog.specs.Catalog as spec;

    ghost Value = { spec.Catalog };

    ghost use Rattle.std.specs.Coded.{codes, coded_ℕ};
    ghost use Rattle.expr.specs.declared.movable_expr.MovableExpr as movable_expr;

    ghost coded = { Prim.hlevel (codes, movable_expr.the_code ℕ coded_ℕ) };

    ghost use Rattle.catalog.specs.View.{catalog_of};

    ghost view = { catalog_of };

    ghost invariant = { λ c. (length c.roles ≤ most_roles) × (list_all (is_of_roles c.roles) (memberships_of c.memberships.items) ≡ true) };
}

impl<A: Heap> Catalog<A> {
    /// A catalogue with one role, the superuser `root`.
    pub fn new(alloc: A) -> Result<Catalog<A>, AllocError>
        ensures { IfOk result (λ cat. cat ≡ at_first) }
    {
        let mut roles = ByName::new(alloc);
        roles.insert(
            alloc,
            "root",
            Role {
                superuser: true,
                bypass_rls: false,
            },
        )?;
        Ok(Catalog {
            alloc,
            roles,
            memberships: Vec::new(alloc),
            tables: ByName::new(alloc),
            change_number: 0,
        })
    }

    /// The number of roles.
    pub fn roles(&self) -> usize
        ensures { result ≡ length self.now.roles }
    {
        self.roles.len()
    }

    /// The number of tables.
    pub fn tables(&self) -> usize
        ensures { result ≡ length self.now.tables }
    {
        self.tables.len()
    }

    /// The number of accepted statements.
    pub fn change_number(&self) -> u64
        ensures { result ≡ self.now.change_number }
    {
        self.change_number
    }

    pub(crate) fn set_change_number(&mut self, number: u64)
        ensures { self.new ≡ record self.old { change_number = number } }
    {
        self.change_number = number;
    }

    /// True where there is a role of that name.
    pub fn is_role(&self, name: &str) -> bool
        ensures { result ≡ is_role self.now name.now }
    {
        self.roles.get(name).is_some()
    }

    /// True where the role of that name is a superuser.
    pub fn is_superuser(&self, name: &str) -> bool
        ensures { result ≡ is_superuser self.now name.now }
    {
        match self.roles.get(name) {
            Some(role) => role.superuser,
            None => false,
        }
    }

    /// True where the role of that name has BYPASSRLS.
    pub fn bypasses_rls(&self, name: &str) -> bool
        ensures { result ≡ bypasses_rls self.now name.now }
    {
        match self.roles.get(name) {
            Some(role) => role.bypass_rls,
            None => false,
        }
    }

    /// True where r is s, or memberships lead from r to s (PostgreSQL: Role Membership). It takes no memory.
    pub fn is_member(&self, r: &str, s: &str) -> bool
        ensures { result ≡ belongs self.now r.now s.now }
    {
        belongs_by(&self.roles, self.memberships.as_slice(), r, s)
    }

    /// The roles that a role belongs to, found once for many questions. It takes no memory.
    pub fn reached(&self, role: &str) -> RoleMarks
        ensures { AreMarksOf self.now role.now result }
    {
        reached_by(&self.roles, self.memberships.as_slice(), role)
    }

    /// True where r is s, or memberships lead from r to s, by the marks of the roles that r belongs to.
    pub fn reaches(&self, marks: &RoleMarks, r: &str, s: &str) -> bool
        requires { AreMarksOf self.now r.now marks.now }
        ensures { result ≡ belongs self.now r.now s.now }
    {
        is_reached(&self.roles, marks, r, s)
    }

    /// The table of that name.
    pub fn table(&self, name: &str) -> Option<Table<'_, A>>
        ensures { option_map (λ t. table_of t) result ≡ table_named name.now self.now }
    {
        match self.find_table(name) {
            Some((_, table)) => Some(table),
            None => None,
        }
    }

    /// The name of the role at an index, in order of creation.
    pub fn role_name(&self, index: usize) -> Option<&str>
        ensures { option_map (λ n. n.now) result ≡ option_map (λ role. role.name) (slice_get self.now.roles index) }
    {
        match self.roles.entry_at(index) {
            Some((name, _)) => Some(name),
            None => None,
        }
    }

    /// The table at an index, in order of creation.
    pub fn table_at(&self, index: usize) -> Option<Table<'_, A>>
        ensures { option_map (λ t. table_of t) result ≡ slice_get self.now.tables index }
    {
        match self.tables.entry_at(index) {
            Some((name, parts)) => Some(Table::new(name, parts)),
            None => None,
        }
    }

    /// The index of the table of that name, and the table.
    pub fn find_table(&self, name: &str) -> Option<(usize, Table<'_, A>)>
        ensures index { option_map (λ p. p.0) result ≡ table_index name.now self.now }
        ensures within { IfSome result (λ p. p.0 < length self.now.tables) }
        ensures table { option_map (λ p. table_of p.1) result ≡ table_named name.now self.now }
    {
        match self.tables.get_full(name) {
            Some((index, name, parts)) => Some((index, Table::new(name, parts))),
            None => None,
        }
    }

    /// True where there is a table of that name.
    pub(crate) fn is_table(&self, name: &str) -> bool
        ensures { result ≡ is_table self.now name.now }
    {
        self.table(name).is_some()
    }

    /// True where one of the tables has an index of that name.
    pub(crate) fn is_index(&self, name: &str) -> bool
        ensures { result ≡ is_index self.now name.now }
    {
        any_index(&self.tables, name)
    }

    /// True where one more policy is within the limit of all tables.
    pub(crate) fn has_policy_room(&self) -> bool
        ensures { result ≡ policies.has_policy_room self.now.tables }
    {
        has_policy_room(&self.tables)
    }

    /// True where a role is a superuser, or belongs to the owner of a table.
    pub(crate) fn owns(&self, actor: &str, table: Table<'_, A>) -> bool
        ensures { result ≡ owns self.now actor.now (table_of table.entry) }
    {
        self.is_superuser(actor) || self.is_member(actor, table.owner())
    }

    /// True where the name is a role's, or `public`.
    pub(crate) fn is_known(&self, name: &str) -> bool
        ensures { result ≡ is_known self.now name.now }
    {
        name == "public" || self.is_role(name)
    }

    /// True where each name is a role's, or `public`.
    pub(crate) fn are_known(&self, names: &[Text<A>]) -> bool
        ensures { result ≡ list_all (is_known self.now) names.now }
    {
        for name in names {
            if !self.is_known(name.as_str()) {
                return false;
            }
        }
        true
    }
}
