//! How the rows of an entry may be joined to the placed entries.

ghost use Rattle.std.specs.Prelude.{◌≡◌};
ghost use Rattle.expr.specs.View.{bound_expr_of};
ghost use Rattle.trailcheck.specs.Admissible as spec;
ghost use Rattle.trailcheck.specs.View.{setting_of};

use crate::access::condition_at;
use crate::entries::is_among;
use crate::equalities::is_equality;
use crate::setting::Setting;
use expr::{Access, BoundExpr, CodeStep, Method, MovableExpr};
use memory::Heap;
use predicates::equated_columns;

// True where the condition equates a column of a placed entry with one of the entry.
fn equates<A: Heap>(placed: &[usize], entry: usize, condition: &BoundExpr<A>) -> bool
    ensures { result ≡ spec.equates placed.now entry (bound_expr_of condition.now) }
{
    match equated_columns(condition) {
        Some((a, b)) => {
            (is_among(placed, a.entry) && b.entry == entry)
                || (a.entry == entry && is_among(placed, b.entry))
        }
        None => false,
    }
}

/// True where the rows of the entry may be joined so.
pub(crate) fn is_allowed_method<A: Heap>(
    setting: &Setting<A>,
    placed: &[usize],
    entry: usize,
    method: Method,
) -> bool
    ensures { result ≡ spec.is_allowed_method (setting_of setting.now) placed.now entry method }
{
    match method {
        Method::Nested => true,
        Method::Hash { conjunct } | Method::Merge { conjunct } => {
            match condition_at(setting, conjunct) {
                Some(condition) => equates(placed, entry, condition.expression()),
                None => false,
            }
        }
    }
}

// True where the left joined entry may be joined so.
fn is_left_method<A: Heap>(entry: usize, on: &MovableExpr<A>, method: Method) -> bool
    ensures { result ≡ spec.is_left_method entry on.now method }
{
    match method {
        Method::Nested => true,
        Method::Hash { conjunct } => is_equality(on, entry, conjunct),
        Method::Merge { .. } => false,
    }
}

// True where the step is of the left joined entry, reads all its rows, and joins it as it may.
fn is_left_step<A: Heap>(entry: usize, on: &MovableExpr<A>, step: CodeStep) -> bool
    ensures { result ≡ spec.is_left_step entry on.now step }
{
    if step.entry == 0 || step.entry - 1 != entry as u64 {
        return false;
    }
    matches!(step.access, Access::Full) && is_left_method(entry, on, step.method)
}

/// True where there is a step for each left joined entry from that of the index on.
pub(crate) fn are_left_steps<A: Heap>(
    entry: usize,
    ons: &[MovableExpr<A>],
    steps: &[CodeStep],
) -> bool
    ensures { result ≡ spec.are_left_steps entry ons.now steps.now }
{
    let [on, ons @ ..] = ons else {
        return steps.is_empty();
    };
    let [step, steps @ ..] = steps else {
        return false;
    };
    is_left_step(entry, on, *step) && are_left_steps(step.entry as usize, ons, steps)
}
