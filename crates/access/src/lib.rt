//! What a role may read: its privileges on columns, what a query needs of them, and the guard of a role on a table
//! (PostgreSQL: Privileges; Row Security Policies).
#![tactic(auto)]

mod guards;
mod laws;
mod mentions;
mod needed_laws;
mod once;
mod privileges;
mod requirements;

pub use guards::{applies, frame, guard, guard_with};
pub use laws::law_guard;
pub use needed_laws::law_named_are_needed;
pub use privileges::{RequiredPrivilege, denied, is_granted, is_granted_by};
pub use requirements::{missing, needed};
