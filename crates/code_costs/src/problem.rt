//! What the codes of a plan are made from, and what their costs are estimated from.

ghost use Rattle.std.specs.Prelude.{◌≡◌, ◌≤◌, All, length, map};
ghost use Rattle.stats.specs.Card as card;
ghost use Rattle.stats.specs.Factors.{million};
ghost use Rattle.stats.specs.View.{selections_of, stats_of};

use expr::ColumnId;
use memory::{Heap, Items};
use stats::{Selection, Stats, selections};
use std::alloc::AllocError;
use trailcheck::Setting;

/// The most entries of FROM that a search takes.
pub const MAX_ENTRIES: usize = 12;

/// What the codes of a plan are made from, the statistics of each entry, and the column by which the rows are wanted in order.
#[derive(Drop)]
pub struct Problem<'p, A: Heap> {
    /// What the codes are made from.
    pub setting: &'p Setting<A>,
    /// The statistics of each entry.
    pub statistics: &'p [&'p Stats<A>],
    /// The column by which the rows are wanted in order, if there is one.
    pub wanted: Option<ColumnId>,
    /// The planning list as the estimates see it.
    pub selections: Items<Selection<A>, A>,
    ghost each: { length statistics.now ≡ length setting.now.frame },
    ghost few: { length setting.now.frame ≤ 12 },
    ghost among: { length setting.now.lefts ≤ length setting.now.frame },
    ghost prepared: { selections_of selections ≡ card.selections (map (λ s. stats_of s.now) statistics.now) setting.now.conditions },
    ghost parts: { All (λ s. s.factor ≤ million) selections },
}

impl<'p, A: Heap> Problem<'p, A> {
    ghost use Rattle.std.specs.Prelude.{IfOk};
    ghost use Rattle.trailcheck.specs.View.{setting_of};
    ghost use Rattle.code_costs.specs.View.{problem_of};

    /// The problem of a query: its setting, the statistics of each entry of FROM, and the column by which its rows are wanted in
    /// order, if there is one. It fails where memory runs out.
    pub fn new(
        alloc: A,
        setting: &'p Setting<A>,
        statistics: &'p [&'p Stats<A>],
        wanted: Option<ColumnId>,
    ) -> Result<Problem<'p, A>, AllocError>
        requires each { length statistics.now ≡ length setting.now.frame }
        requires few { length setting.now.frame ≤ 12 }
        requires among { length setting.now.lefts ≤ length setting.now.frame }
        ensures { IfOk result (λ p. problem_of p ≡ record { setting = setting_of setting.now; statistics = map (λ s. stats_of s.now) statistics.now; wanted = wanted }) }
    {
        let selections = selections(alloc, statistics, setting.conditions.as_slice())?;
        Ok(Problem {
            setting,
            statistics,
            wanted,
            selections,
        })
    }
}
