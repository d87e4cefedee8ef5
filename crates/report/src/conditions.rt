//! The fragile conjuncts on a combination, by their marks.

ghost use Rattle.std.specs.Prelude.{◌≡◌, map};
ghost use Rattle.memory.specs.Gives.{Gives};
ghost use Rattle.eval.specs.Meaning.{meaning};
ghost use Rattle.tuples.specs.Combinations.{joined_cells};
ghost use Rattle.tuples.specs.View.{world_of};
ghost use Rattle.tuples.specs.World.{combination_at};
ghost use Rattle.row_marks.specs.Marks.{AreMarked, IsMarked, exprs_of, seen_of};
ghost use Rattle.report.specs.QueryStages as spec;

use crate::outcomes::truth_in;
use memory::{Failure, Heap};
use row_marks::Marked;
use tuples::{Combo, JoinedRow, World};
use value::Fault;

// True where a condition is true on a combination, by its mark, where it is made.
fn is_true_by_mark<A: Heap>(
    alloc: A,
    world: &World<'_, A>,
    condition: &Marked<'_, A>,
    combination: &Combo<A>,
) -> Result<bool, Failure<Fault>>
    ensures { IsMarked (world_of world.now) condition.now → Gives (λ b. b) result (spec.truth_in (meaning (joined_cells (combination_at (world_of world.now).tables combination.now)) world.now.role.now (seen_of condition.now).0)) }
{
    let row = JoinedRow::new(world.tables, combination);
    truth_in(condition.outcome(alloc, combination, &row, world.role))
}

// True where a condition is true on a combination. Its mark is made, unless it is made already.
fn is_true_on<A: Heap>(
    alloc: A,
    world: &World<'_, A>,
    condition: &mut Marked<'_, A>,
    combination: &Combo<A>,
) -> Result<bool, Failure<Fault>>
    ensures value { IsMarked (world_of world.now) condition.old → Gives (λ b. b) result (spec.truth_in (meaning (joined_cells (combination_at (world_of world.now).tables combination.now)) world.now.role.now (seen_of condition.old).0)) }
    ensures seen { seen_of condition.new ≡ seen_of condition.old }
    ensures marked { IsMarked (world_of world.now) condition.old → IsMarked (world_of world.now) condition.new }
{
    condition.make(alloc, world, combination)?;
    is_true_by_mark(alloc, world, &*condition, combination)
}

/// True where the conditions keep the combination: the first that is not true drops it, the first that faults gives its fault. The
/// marks of those up to this one are made, unless they are made already.
pub(crate) fn keeps_combination<A: Heap>(
    alloc: A,
    world: &World<'_, A>,
    conditions: &mut Vec<Marked<'_, A>, A>,
    combination: &Combo<A>,
) -> Result<bool, Failure<Fault>>
    ensures value { AreMarked (world_of world.now) conditions.old.items → Gives (λ b. b) result (spec.keeps (joined_cells (combination_at (world_of world.now).tables combination.now)) world.now.role.now (exprs_of conditions.old.items)) }
    ensures seen { map (λ m. seen_of m) conditions.new.items ≡ map (λ m. seen_of m) conditions.old.items }
    ensures marked { AreMarked (world_of world.now) conditions.old.items → AreMarked (world_of world.now) conditions.new.items }
{
    for index in 0..conditions.len() {
        match is_true_on(alloc, world, &mut conditions[index], combination) {
            Ok(true) => {}
            Ok(false) => return Ok(false),
            Err(failure) => return Err(failure),
        }
    }
    Ok(true)
}

/// True where the conditions keep the combination, as `keeps_combination` says it, by the marks that are made.
pub(crate) fn keeps_by_marks<A: Heap>(
    alloc: A,
    world: &World<'_, A>,
    conditions: &[Marked<'_, A>],
    combination: &Combo<A>,
) -> Result<bool, Failure<Fault>>
    ensures { AreMarked (world_of world.now) conditions.now → Gives (λ b. b) result (spec.keeps (joined_cells (combination_at (world_of world.now).tables combination.now)) world.now.role.now (exprs_of conditions.now)) }
{
    for condition in conditions {
        if !is_true_by_mark(alloc, world, condition, combination)? {
            return Ok(false);
        }
    }
    Ok(true)
}
