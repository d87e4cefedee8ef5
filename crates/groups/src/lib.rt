//! Stages of a query, each all values or the least of their faults; groups of rows and their aggregates.
#![tactic(auto)]

mod faults;
mod group_row;
mod groups;
mod keys;
mod laws;
mod members;
mod stage;
mod totals;

pub use group_row::{GroupCells, GroupRow};
pub use groups::Groups;
pub use laws::{
    law_aggregates_of_classes, law_groups_differ, law_no_member_lost, law_order_of_members,
    law_running_totals,
};
pub use members::{Arguments, key_on};
pub use stage::{Stage, gives, gives_if};
