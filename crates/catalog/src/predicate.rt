//! `USING (predicate)` (PostgreSQL: CREATE POLICY).

ghost use Rattle.std.specs.Prelude.{◌≡◌, None, Ok};
ghost use Rattle.row_ast.specs.View.{expr_of};
ghost use Rattle.expr.specs.View.{bound_expr_of};
ghost use Rattle.row_objects.specs.View.{table_of};
ghost use Rattle.scope.specs.View.{entry_of};
ghost use Rattle.catalog.specs.PredicateChecks.{first_refusal};
ghost use Rattle.catalog.specs.PolicyPredicate as spec;
ghost use Rattle.catalog.specs.PolicyPredicate.{bound_predicate, checks_bound, checks_predicate, CheckedPredicate};

use expr::{BoundExpr, MovableExpr, is_movable};
use memory::{Failure, Heap};
use row_ast::Expr;
use row_objects::Table;
use scope::{Entry, bind_expr, everywhere};
use typing::condition_error;
use value::Refusal;

fn policy_entry<A: Heap>(table: Table<'_, A>) -> Entry<'_, A>
    ensures { entry_of result ≡ spec.policy_entry (table_of table.entry) }
{
    Entry {
        table,
        alias: table.name(),
        first: 0,
        on: None,
    }
}

// The bound condition, if it never faults and there is room for it.
fn check_movable<A: Heap>(
    has_room: bool,
    bound: Box<BoundExpr<A>, A>,
) -> Result<MovableExpr<A>, Refusal>
    ensures { CheckedPredicate result (first_refusal (checks_bound has_room (Ok (bound_expr_of bound.value)) None)) (Ok (bound_expr_of bound.value)) }
{
    if is_movable(&bound) && !has_room {
        return Err(Refusal::ProgramLimitExceeded);
    }
    MovableExpr::new(bound).ok_or(Refusal::InvalidObjectDefinition)
}

/// The condition of a policy on a table, with its columns found. Refused are, in this order, a name that does not
/// resolve, a misplaced aggregate or a wrong type, a condition that may fault (42P17), and one policy more than there
/// is room for (54000); or out of memory.
pub fn check_predicate<A: Heap>(
    alloc: A,
    has_room: bool,
    table: Table<'_, A>,
    predicate: &Expr<A>,
) -> Result<MovableExpr<A>, Refusal>
    ensures { CheckedPredicate result (first_refusal (checks_predicate has_room (table_of table.entry) (expr_of predicate.now))) (bound_predicate (table_of table.entry) (expr_of predicate.now)) }
{
    let entries = [policy_entry(table)];
    match bind_expr(alloc, &entries, everywhere(&entries), predicate) {
        Err(Failure::Error(fault)) => Err(fault.code),
        Err(Failure::OutOfMemory) => Err(Refusal::OutOfMemory),
        Ok(bound) => match condition_error(&entries, 0, predicate) {
            Some(fault) => Err(fault.code),
            None => check_movable(has_room, bound),
        },
    }
}
