//! The things of a catalogue: its roles and their memberships, tables by name, the grants, the policies and the indexes of a
//! table, and what is changed of a table.
#![tactic(auto)]

mod by_name;
mod changes;
mod copies;
mod grants;
mod indexes;
mod memberships;
mod names;
mod objects;
mod once;
mod policies;
mod table_defs;

pub use by_name::ByName;
pub use changes::{
    add_index, add_policy, drop_policy, give_table, grant_select, revoke_select, set_row_security,
};
pub use grants::{Grant, add_grants, remove_grants};
pub use indexes::{any_index, is_indexed, new_index};
pub use memberships::{
    MOST_ROLES, Membership, RoleMarks, add_membership, belongs_by, closes_loop, is_reached,
    law_belongs_by_paths, law_no_loop, reached_by, remove_membership,
};
pub use names::{are_columns, column_index, column_named, has_name_twice, is_qualified};
pub use objects::{Index, Policy, Role, Table, TableDef};
pub use policies::{MOST_POLICIES, has_policy, has_policy_room, new_policy, remove_policy};
pub use table_defs::new_table;
