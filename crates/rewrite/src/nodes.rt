//! Nodes of terms.

ghost use Rattle.std.specs.Prelude.{◌≡◌, IfOk};
ghost use Rattle.row_terms.specs.Terms as terms;
ghost use Rattle.row_terms.specs.View.{term_of};

use expr::MovableExpr;
use memory::{Heap, boxed};
use row_terms::Term;
use std::alloc::AllocError;

/// The term under a condition.
pub(crate) fn filtered<A: Heap>(
    alloc: A,
    condition: MovableExpr<A>,
    input: Term<A>,
) -> Result<Term<A>, AllocError>
    ensures { IfOk result (λ t. term_of t ≡ terms.Filtered condition (term_of input)) }
{
    let input = boxed(alloc, input)?;
    Ok(Term::Filtered { condition, input })
}

/// The combinations of a term that the guard of an entry shows.
pub(crate) fn guarded<A: Heap>(
    alloc: A,
    entry: usize,
    input: Term<A>,
) -> Result<Term<A>, AllocError>
    ensures { IfOk result (λ t. term_of t ≡ terms.Guarded entry (term_of input)) }
{
    let input = boxed(alloc, input)?;
    Ok(Term::Guarded { entry, input })
}

/// Each combination of the left term with those of the right one on which a condition is true, or with null rows where there is
/// none.
pub(crate) fn left_joined<A: Heap>(
    alloc: A,
    on: MovableExpr<A>,
    left: Term<A>,
    right: Term<A>,
) -> Result<Term<A>, AllocError>
    ensures { IfOk result (λ t. term_of t ≡ terms.LeftJoined on (term_of left) (term_of right)) }
{
    let left = boxed(alloc, left)?;
    let right = boxed(alloc, right)?;
    Ok(Term::LeftJoined { on, left, right })
}

/// Each combination of the left term with each of the right one.
pub(crate) fn joined<A: Heap>(
    alloc: A,
    left: Term<A>,
    right: Term<A>,
) -> Result<Term<A>, AllocError>
    ensures { IfOk result (λ t. term_of t ≡ terms.Joined (term_of left) (term_of right)) }
{
    let left = boxed(alloc, left)?;
    let right = boxed(alloc, right)?;
    Ok(Term::Joined { left, right })
}
