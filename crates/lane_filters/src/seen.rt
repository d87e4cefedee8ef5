//! The rows of a table that a role sees.

ghost use Rattle.std.specs.Prelude.{IfOk, IfSome, map};
ghost use Rattle.value.specs.Orders.{is_true};
ghost use Rattle.tuples.specs.Guards.{AreSeen};
ghost use Rattle.tuples.specs.View.{guard_of};

use crate::filters::truths_of;
use crate::sizes::row_count;
use crate::truths::Truths;
use columns::Mask;
use memory::Heap;
use std::alloc::AllocError;
use tables::Table;
use tuples::{Guard, TableRow, shows};

// Whether a guard shows each row, as truth values, unless it has a condition that is evaluated on each row.
fn guard_truths<A: Heap>(
    alloc: A,
    table: &Table<A>,
    guard: &Guard<A>,
    role: &str,
) -> Result<Option<Truths<A>>, AllocError>
    ensures { IfOk result (λ o. IfSome o (λ ts. AreSeen role.now (guard_of guard.now) table.now.rows (map is_true ts))) }
{
    match guard {
        Guard::All => Ok(Some(Truths::all(alloc, row_count(table), true)?)),
        Guard::None => Ok(Some(Truths::all(alloc, row_count(table), false)?)),
        Guard::Expr(condition) => truths_of(alloc, table, role, condition.expression()),
    }
}

// Of each row whether a guard shows it to a role; the guard is tested on each.
fn shown_each<A: Heap>(
    alloc: A,
    table: &Table<A>,
    guard: &Guard<A>,
    role: &str,
) -> Result<Mask<A>, AllocError>
    ensures { IfOk result (λ m. AreSeen role.now (guard_of guard.now) table.now.rows m) }
{
    let mut seen = Mask::new(alloc);
    for number in 0..table.rows() {
        let row = TableRow::new(table, number);
        seen.push(shows(alloc, guard, role, &row))?;
    }
    Ok(seen)
}

/// Of each row of a table whether a guard shows it to a role. The condition of the guard is evaluated for all rows at once where it
/// can be. It fails where memory runs out.
pub fn seen_rows<A: Heap>(
    alloc: A,
    table: &Table<A>,
    guard: &Guard<A>,
    role: &str,
) -> Result<Mask<A>, AllocError>
    ensures { IfOk result (λ m. AreSeen role.now (guard_of guard.now) table.now.rows m) }
{
    match guard_truths(alloc, table, guard, role)? {
        Some(truths) => Ok(truths.into_mask()),
        None => shown_each(alloc, table, guard, role),
    }
}
