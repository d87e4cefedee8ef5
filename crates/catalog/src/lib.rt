//! The roles and tables of a database, who owns and reads what, and the schema statements that change them.
#![tactic(auto)]

mod apply;
mod catalog;
mod create_index;
mod create_policy;
mod create_role;
mod create_table;
mod drop_policy;
mod grant_role;
mod grant_select;
mod laws;
mod predicate;
mod revoke_role;
mod revoke_select;
mod row_security;
mod set_owner;

pub use catalog::Catalog;
pub use create_table::{MOST_COLUMNS, MOST_TABLES};
pub use laws::{law_granted_again, law_no_loop, law_revoked, law_tables_keep_their_columns};
pub use row_objects::{MOST_POLICIES, MOST_ROLES, RoleMarks, column_index, is_qualified};
