//! A step at the node of its path.

ghost use Rattle.std.specs.Prelude.{◌≡◌, map};
ghost use Rattle.memory.specs.Gives.{Gives};
ghost use Rattle.tuples.specs.View.{guard_of};
ghost use Rattle.row_terms.specs.View.{term_of};
ghost use Rattle.algebra.specs.Rewrites as spec;
ghost use Rattle.algebra.specs.View.{step_of};

use crate::empty_terms::{empty_filter, empty_input};
use crate::equalities::{add_filter, drop_added};
use crate::guards::{add_guard, drop_guard, pull_over_guard, push_under_guard};
use crate::joins::{exchange_right, pull_left, pull_right, push_left, push_right, swap_sides};
use crate::left_joins::{make_inner, pull_over_left, push_under_left};
use crate::one_filter::{carry_not, factor_out, fold_literals, not_null};
use crate::step::{Reason, Rewrite, Step, rewrite_of};
use crate::two_filters::{copy_filter, drop_filter, merge_filters, split_filter, swap_filters};
use memory::{Failure, Heap, boxed};
use row_terms::{Branch, Term};
use tuples::Guard;

// A node rewritten, by the guards of the entries.
fn rewritten<A: Heap>(
    alloc: A,
    frame: &[Guard<A>],
    rewrite: Rewrite,
    term: Term<A>,
) -> Result<Term<A>, Failure<Reason>>
    ensures { Gives (λ t. term_of t) result (spec.rewritten (map guard_of frame.now) rewrite (term_of term)) }
{
    match rewrite {
        Rewrite::SplitFilter => split_filter(alloc, term),
        Rewrite::MergeFilters => merge_filters(alloc, term),
        Rewrite::SwapFilters => swap_filters(alloc, term),
        Rewrite::PushLeft => push_left(alloc, term),
        Rewrite::PullLeft => pull_left(alloc, term),
        Rewrite::PushRight => push_right(alloc, term),
        Rewrite::PullRight => pull_right(alloc, term),
        Rewrite::SwapSides => swap_sides(term),
        Rewrite::ExchangeRight => exchange_right(alloc, term),
        Rewrite::PushUnderGuard => push_under_guard(alloc, term),
        Rewrite::PullOverGuard => pull_over_guard(alloc, term),
        Rewrite::DropGuard => drop_guard(frame, term),
        Rewrite::AddGuard { number } => add_guard(alloc, frame, number, term),
        Rewrite::DropFilter => drop_filter(term),
        Rewrite::CopyFilter { p } => copy_filter(alloc, p, term),
        Rewrite::AddEquality { p, q } => add_filter(alloc, false, p, q, term),
        Rewrite::DropEquality { p, q } => drop_added(alloc, false, p, q, term),
        Rewrite::AddConstant { p, q } => add_filter(alloc, true, p, q, term),
        Rewrite::DropConstant { p, q } => drop_added(alloc, true, p, q, term),
        Rewrite::CarryNot => carry_not(alloc, term),
        Rewrite::FoldLiterals => fold_literals(alloc, term),
        Rewrite::EmptyFilter => empty_filter(alloc, frame.len(), term),
        Rewrite::EmptyInput => empty_input(alloc, frame.len(), term),
        Rewrite::FactorOut => factor_out(alloc, term),
        Rewrite::NotNull => not_null(alloc, term),
        Rewrite::MakeInner => make_inner(alloc, term),
        Rewrite::PushUnderLeft => push_under_left(alloc, term),
        Rewrite::PullOverLeft => pull_over_left(alloc, term),
    }
}

// The same, or that there is no rewrite.
fn rewritten_if<A: Heap>(
    alloc: A,
    frame: &[Guard<A>],
    rewrite: Option<Rewrite>,
    term: Term<A>,
) -> Result<Term<A>, Failure<Reason>>
    ensures { Gives (λ t. term_of t) result (spec.rewritten_if (map guard_of frame.now) rewrite (term_of term)) }
{
    match rewrite {
        Some(rewrite) => rewritten(alloc, frame, rewrite, term),
        None => Err(Failure::Error(Reason::Misfit)),
    }
}

// The same at the node that the path leads to.
fn at_node<A: Heap>(
    alloc: A,
    frame: &[Guard<A>],
    rewrite: Option<Rewrite>,
    path: &[Branch],
    term: Term<A>,
) -> Result<Term<A>, Failure<Reason>>
    ensures { Gives (λ t. term_of t) result (spec.at_node (spec.rewritten_if (map guard_of frame.now) rewrite) path.now (term_of term)) }
{
    let [branch, path @ ..] = path else {
        return rewritten_if(alloc, frame, rewrite, term);
    };
    match (*branch, term) {
        (Branch::First, Term::Guarded { entry, input }) => {
            let input = at_node(alloc, frame, rewrite, path, Box::into_inner(input))?;
            Ok(Term::Guarded {
                entry,
                input: boxed(alloc, input)?,
            })
        }
        (Branch::First, Term::Filtered { condition, input }) => {
            let input = at_node(alloc, frame, rewrite, path, Box::into_inner(input))?;
            Ok(Term::Filtered {
                condition,
                input: boxed(alloc, input)?,
            })
        }
        (Branch::First, Term::Joined { left, right }) => {
            let left = at_node(alloc, frame, rewrite, path, Box::into_inner(left))?;
            Ok(Term::Joined {
                left: boxed(alloc, left)?,
                right,
            })
        }
        (Branch::Second, Term::Joined { left, right }) => {
            let right = at_node(alloc, frame, rewrite, path, Box::into_inner(right))?;
            Ok(Term::Joined {
                left,
                right: boxed(alloc, right)?,
            })
        }
        (Branch::First, Term::LeftJoined { on, left, right }) => {
            let left = at_node(alloc, frame, rewrite, path, Box::into_inner(left))?;
            Ok(Term::LeftJoined {
                on,
                left: boxed(alloc, left)?,
                right,
            })
        }
        (Branch::Second, Term::LeftJoined { on, left, right }) => {
            let right = at_node(alloc, frame, rewrite, path, Box::into_inner(right))?;
            Ok(Term::LeftJoined {
                on,
                left,
                right: boxed(alloc, right)?,
            })
        }
        _ => Err(Failure::Error(Reason::NoNode)),
    }
}

/// The term after a step, or the reason why there is none; the guards are those of the entries of FROM. A step keeps the
/// bag that a term means, in every content (`law_steps_keep`).
pub fn apply<A: Heap>(
    alloc: A,
    frame: &[Guard<A>],
    term: Term<A>,
    step: &Step<A>,
) -> Result<Term<A>, Failure<Reason>>
    ensures { Gives (λ t. term_of t) result (spec.applied (map guard_of frame.now) (step_of step.now) (term_of term)) }
{
    let rewrite = rewrite_of(step.rule, step.is_reverse, step.arguments.as_slice());
    at_node(alloc, frame, rewrite, step.path.as_slice(), term)
}
