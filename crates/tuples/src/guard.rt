//! The rows that a guard shows.

ghost use Rattle.std.specs.Prelude.{◌≡◌};
ghost use Rattle.tuples.specs.Guards as spec;
ghost use Rattle.tuples.specs.View.{guard_of};

use crate::rows::TableRow;
use eval::is_true_on;
use expr::MovableExpr;
use memory::Heap;

/// The rows of a table that a role sees.
#[derive(Drop)]
pub enum Guard<A: Heap> {
    /// Every row.
    All,
    /// No row.
    None,
    /// The rows on which the expression is true.
    Expr(MovableExpr<A>),
}

/// True where the guard lets the role see a row. It takes no memory.
pub fn shows<A: Heap>(alloc: A, guard: &Guard<A>, role: &str, row: &TableRow<'_, A>) -> bool
    ensures { result ≡ spec.shows role.now (guard_of guard.now) row.now }
{
    match guard {
        Guard::All => true,
        Guard::None => false,
        Guard::Expr(predicate) => is_true_on(alloc, predicate.expression(), row, role),
    }
}
