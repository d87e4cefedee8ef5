//! Conditions as the estimates see them.

ghost use Rattle.std.specs.Prelude.{◌≡◌, ◌≤◌, All, IfOk, map};
ghost use Rattle.stats.specs.Card as spec;
ghost use Rattle.stats.specs.Factors.{million};
ghost use Rattle.stats.specs.View.{selection_of, selections_of, stats_of};

use crate::factors::factor;
use crate::statistics::Stats;
use expr::{ColumnId, MovableExpr, push_columns};
use memory::{Heap, Items};
use std::alloc::AllocError;

/// A condition of the planning list: the columns that it names, and its factor.
#[derive(Debug, Drop)]
pub struct Selection<A: Heap> {
    /// The columns.
    pub columns: Items<ColumnId, A>,
    /// The factor, in parts per million.
    pub factor: u64,
}

// A condition as the estimates see it.
fn selected<A: Heap>(
    alloc: A,
    statistics: &[&Stats<A>],
    condition: &MovableExpr<A>,
) -> Result<Selection<A>, AllocError>
    ensures value { IfOk result (λ s. selection_of s ≡ spec.selection (map (λ s. stats_of s.now) statistics.now) condition.now) }
    ensures parts { IfOk result (λ s. s.factor ≤ million) }
{
    let expression = condition.expression();
    let mut columns = Items::new(alloc);
    push_columns(&mut columns, expression)?;
    Ok(Selection {
        columns,
        factor: factor(statistics, expression),
    })
}

/// Each of the conditions as the estimates see it, by the statistics of each entry of FROM. It fails where memory runs out.
pub fn selections<A: Heap>(
    alloc: A,
    statistics: &[&Stats<A>],
    conditions: &[MovableExpr<A>],
) -> Result<Items<Selection<A>, A>, AllocError>
    ensures value { IfOk result (λ ss. selections_of ss ≡ spec.selections (map (λ s. stats_of s.now) statistics.now) conditions.now) }
    ensures parts { IfOk result (λ ss. All (λ s. s.factor ≤ million) ss) }
{
    let mut selections = Items::new(alloc);
    for condition in conditions {
        selections.push(selected(alloc, statistics, condition)?)?;
    }
    Ok(selections)
}
