//! The world of a query: its role and its tables.

ghost use Rattle.std.specs.Prelude.{IfSome};
ghost use Rattle.std.specs.Option.{ForSome};
ghost use Rattle.tuples.specs.Guards.{AreSeen};
ghost use Rattle.tuples.specs.GuardView.{guard_of};

use crate::guard::Guard;
use columns::Mask;
use expr::BoundQuery;
use memory::Heap;
use tables::Table;

/// Of each row of a table whether a role sees it.
#[derive(Drop)]
pub struct SeenRows<'w, A: Heap> {
    /// The role.
    pub role: &'w str,
    /// A bit for each row.
    pub bits: &'w Mask<A>,
}

/// The rows of an entry of FROM, and the guard of those that the role sees.
#[derive(Drop)]
pub struct GuardedTable<'w, A: Heap> {
    /// The rows.
    pub rows: &'w Table<A>,
    /// The guard of those that the role sees.
    pub guard: &'w Guard<A>,
    /// Which rows the guard shows to a role, where this is known.
    pub seen: Option<SeenRows<'w, A>>,
    ghost right: { ForSome seen (λ s. AreSeen s.role.now (guard_of guard.now) rows.now.rows s.bits.now) },
}

impl<'w, A: Heap> GuardedTable<'w, A> {
    /// Of each row whether the guard shows it to a role, where this is known for that role.
    pub fn seen_by(&self, role: &str) -> Option<&'w Mask<A>>
        ensures { IfSome result (λ bits. AreSeen role.now (guard_of self.now.guard.now) self.now.rows.now.rows bits.now) }
    {
        match &self.seen {
            Some(seen) if seen.role == role => Some(seen.bits),
            _ => None,
        }
    }
}

/// A bound query, the role that asks it, and the table of each entry of FROM, in order.
#[derive(Drop)]
pub struct World<'w, A: Heap> {
    /// The role.
    pub role: &'w str,
    /// The query.
    pub query: &'w BoundQuery<A>,
    /// The tables.
    pub tables: &'w [GuardedTable<'w, A>],
}
