//! The forms of movable conditions, which are movable.

ghost use Rattle.std.specs.Prelude.{◌≡◌, IfOk};
ghost use Rattle.predicates.specs.Folded.{folded};
ghost use Rattle.predicates.specs.Inward.{inward};

use crate::carrying::carry_inward;
use crate::folding::fold;
use expr::MovableExpr;
use memory::Heap;
use std::alloc::AllocError;

/// The condition with NOT carried inward.
pub fn inward<A: Heap>(alloc: A, condition: &MovableExpr<A>) -> Result<MovableExpr<A>, AllocError>
    ensures { IfOk result (λ form. form ≡ inward condition.now) }
{
    let form = carry_inward(alloc, condition.expression())?;
    Ok(MovableExpr::of_movable(form))
}

/// The condition with its literals folded.
pub fn folded<A: Heap>(alloc: A, condition: &MovableExpr<A>) -> Result<MovableExpr<A>, AllocError>
    ensures { IfOk result (λ form. form ≡ folded condition.now) }
{
    let form = fold(alloc, condition.expression())?;
    Ok(MovableExpr::of_movable(form))
}
