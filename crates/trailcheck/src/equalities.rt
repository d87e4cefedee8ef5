//! The equalities by which the ON of a left joined entry joins it.

ghost use Rattle.std.specs.Prelude.{◌≡◌, ◌==◌, ◌&&◌, Some, nat_lt};
ghost use Rattle.std.specs.List.{range_with_len};
ghost use Rattle.expr.specs.View.{bound_expr_of};
ghost use Rattle.trailcheck.specs.Admissible as admissible;
ghost use Rattle.trailcheck.specs.Equalities as spec;

use expr::{BoundExpr, ColumnId, MovableExpr};
use memory::Heap;
use predicates::{conjunct_count, conjunct_numbered, equated_columns};

// True where the one column is of an earlier entry, and the other one of the entry.
fn faces(entry: usize, one: ColumnId, other: ColumnId) -> bool
    ensures { result ≡ (nat_lt one.entry entry && (other.entry == entry)) }
{
    one.entry < entry && other.entry == entry
}

// True where one of two columns is of an earlier entry, and the other one of the entry.
fn are_across(entry: usize, a: ColumnId, b: ColumnId) -> bool
    ensures { result ≡ admissible.are_across (range_with_len 0 entry) entry (Some (a, b)) }
{
    faces(entry, a, b) || faces(entry, b, a)
}

// True where the condition equates a column of an earlier entry with one of the entry.
fn equates_before<A: Heap>(entry: usize, condition: &BoundExpr<A>) -> bool
    ensures { result ≡ admissible.equates (range_with_len 0 entry) entry (bound_expr_of condition.now) }
{
    match equated_columns(condition) {
        Some((a, b)) => are_across(entry, a, b),
        None => false,
    }
}

/// True where the conjunct of the ON of that number, from 1, does so.
pub(crate) fn is_equality<A: Heap>(on: &MovableExpr<A>, entry: usize, number: u64) -> bool
    ensures { result ≡ spec.is_equality entry on.now number }
{
    match conjunct_numbered(on, number) {
        Some(condition) => equates_before(entry, condition),
        None => false,
    }
}

/// The number, from 1, of the first conjunct of an ON that equates a column of an earlier entry with one of the entry.
pub fn first_equality<A: Heap>(on: &MovableExpr<A>, entry: usize) -> Option<u64>
    ensures { result ≡ spec.first_equality entry on.now }
{
    let count = conjunct_count(on) as u64;
    for k in 0..count {
        if is_equality(on, entry, k + 1) {
            return Some(k + 1);
        }
    }
    None
}
