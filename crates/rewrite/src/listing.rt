//! The steps from the written term of a query to the conditions of its planning list over the joins in the order of FROM.

ghost use Rattle.std.specs.Prelude.{◌≡◌, [], IfOk, map};
ghost use Rattle.expr.specs.View.{bound_query_of};
ghost use Rattle.algebra.specs.PlanningList as planning;
ghost use Rattle.algebra.specs.View.{step_of};
ghost use Rattle.rewrite.specs.Listing as spec;

use crate::simplifying::{push_adding_all, push_dropping_all, push_parting, push_simplifying};
use crate::turning::turn_all;
use algebra::Step;
use expr::{BoundQuery, MovableExpr};
use memory::{Heap, Items};
use row_terms::left_conditions;
use std::alloc::AllocError;

/// Conditions that never fault.
type Conditions<A> = Items<MovableExpr<A>, A>;

/// The steps that simplify the conditions of a query, and what it is planned with, to which they lead.
#[derive(Drop)]
pub struct Simplified<A: Heap> {
    /// The steps, from the written term.
    pub trail: Items<Step<A>, A>,
    /// The planning list.
    pub conditions: Items<MovableExpr<A>, A>,
    /// The ONs of the entries that are left joined in the plan.
    pub lefts: Items<MovableExpr<A>, A>,
}

// What is as it is written, to which no step leads.
fn as_written<A: Heap>(alloc: A, written: Conditions<A>, lefts: Conditions<A>) -> Simplified<A>
    ensures trail { map step_of result.trail ≡ [] }
    ensures conditions { result.conditions ≡ written }
    ensures lefts { result.lefts ≡ lefts }
{
    Simplified {
        trail: Items::new(alloc),
        conditions: written,
        lefts,
    }
}

/// The steps that lead from the written term of a query to the conditions of its planning list over the joins in the order of
/// FROM, and what the query is planned with. It fails where memory runs out.
pub fn simplify<A: Heap>(alloc: A, query: &BoundQuery<A>) -> Result<Simplified<A>, AllocError>
    ensures trail { IfOk result (λ s. map step_of s.trail ≡ spec.simplifying (bound_query_of query.now)) }
    ensures conditions { IfOk result (λ s. s.conditions ≡ planning.planning_list (bound_query_of query.now)) }
    ensures lefts { IfOk result (λ s. s.lefts ≡ planning.remaining_lefts (bound_query_of query.now)) }
{
    let written = algebra::written_conditions(alloc, query)?;
    let ons = left_conditions(alloc, query)?;
    let first = query.ons.len().saturating_sub(ons.len());
    let forms = algebra::all_simplified(alloc, written.as_slice())?;
    let mut trail = Items::new(alloc);
    push_simplifying(alloc, &mut trail, written.as_slice())?;
    push_parting(alloc, &mut trail, forms.as_slice())?;
    let mut known = algebra::all_parts(alloc, forms)?;
    let lefts = turn_all(alloc, &mut trail, &mut known, first, ons.as_slice())?;
    if algebra::is_too_long(known.as_slice()) {
        return Ok(as_written(alloc, written, ons));
    }
    let all = push_adding_all(alloc, &mut trail, known.as_slice())?;
    if algebra::is_too_long(all.as_slice()) {
        return Ok(as_written(alloc, written, ons));
    }
    let conditions = push_dropping_all(alloc, &mut trail, all)?;
    let lefts = algebra::copies(alloc, lefts)?;
    Ok(Simplified {
        trail,
        conditions,
        lefts,
    })
}
