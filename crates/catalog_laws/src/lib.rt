//! Laws of catalogues and databases: what GRANT gives and REVOKE takes, and what each statement and each load keeps.
#![tactic(auto)]

mod databases;
mod grants;
mod well_formed;

pub use databases::law_well_formed_database;
pub use grants::law_grants;
pub use well_formed::law_well_formed;
