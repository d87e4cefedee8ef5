//! Statistics of tables, and what is estimated from them: the factors of conditions, and the numbers of combinations of rows
//! (Selinger et al. 1979, section 4).
#![tactic(auto)]

mod counting;
mod entry_set;
mod factors;
mod marked_stats;
mod selection;
mod sizes;
mod statistics;

pub use entry_set::EntrySet;
pub use factors::factor;
pub use marked_stats::MarkedStats;
pub use selection::{Selection, selections};
pub use sizes::{card, reduced};
pub use statistics::{Bounds, ColumnStats, Stats};
