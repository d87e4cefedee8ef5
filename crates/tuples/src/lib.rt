//! What a query runs over: the rows of each entry of FROM behind a guard, combinations of these rows, and the counter of
//! work.
#![tactic(auto)]

mod combination;
mod guard;
mod joined;
mod laws;
mod rows;
mod sink;
mod slot;
mod work;
mod world;

pub use combination::Combo;
pub use guard::{Guard, shows};
pub use joined::{JoinedRow, PairedRow};
pub use laws::law_no_lefts;
pub use rows::TableRow;
pub use sink::Sink;
pub use slot::Slot;
pub use work::Work;
pub use world::{GuardedTable, SeenRows, World};
