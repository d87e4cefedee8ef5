//! What plans of a query are made from.

ghost use Rattle.std.specs.Prelude.{◌≡◌, ◌+◌, ◌<◌, ◌^◌, length};
ghost use Rattle.trailcheck.specs.Settings.{inner_count};
ghost use Rattle.trailcheck.specs.View.{setting_of};

use expr::MovableExpr;
use memory::{Heap, Items};
use tuples::Guard;

/// The guards, the indexes and the conditions that plans of a query are made from.
#[derive(Drop)]
pub struct Setting<A: Heap> {
    /// The guard of each entry of FROM.
    pub frame: Items<Guard<A>, A>,
    /// Of each entry, the columns that have an index, counted from 1.
    pub indexed: Items<Items<u64, A>, A>,
    /// The planning list of conditions.
    pub conditions: Items<MovableExpr<A>, A>,
    /// Of each left joined entry its ON: these entries are the last.
    pub lefts: Items<MovableExpr<A>, A>,
}

/// The number of the entries that come before the left joined ones.
pub fn inner_count<A: Heap>(setting: &Setting<A>) -> usize
    ensures count { result ≡ inner_count (setting_of setting.now) }
    ensures fits { result + length setting.now.lefts < 2 ^ 64 }
{
    setting.frame.len().saturating_sub(setting.lefts.len())
}
