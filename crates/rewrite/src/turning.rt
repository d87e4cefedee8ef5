//! The steps by which left joined entries become inner.

ghost use Rattle.std.specs.Prelude.{◌≡◌, ◌++◌, ◌+◌, ◌<◌, ◌^◌, [], IfOk, OnOk, is_some, length, map, option_map, unwrap_or, if◌then◌else◌};
ghost use Rattle.algebra.specs.PlanningList as planning;
ghost use Rattle.algebra.specs.View.{step_of};
ghost use Rattle.rewrite.specs.Trails.{at_root, below_path, plain};
ghost use Rattle.rewrite.specs.Turning as spec;

use crate::simplifying::{
    SPLIT_FILTER, push_parting, push_repeated, push_simplifying, split_count,
};
use crate::steps::{further, path_below, path_further, push_plain, push_step};
use algebra::{Step, first_turning};
use expr::MovableExpr;
use memory::{Heap, Items};
use row_terms::Branch;
use std::alloc::AllocError;

/// Conditions that never fault.
type Conditions<A> = Items<MovableExpr<A>, A>;

/// Steps, the first one first.
type Trail<A> = Items<Step<A>, A>;

const SWAP_FILTERS: u64 = 3;

const MAKE_INNER: u64 = 19;

const CHANGE_WITH_LEFT: u64 = 20;

// Adds the same step at so many nodes, one below the other, from the first down.
fn push_downward<A: Heap>(
    alloc: A,
    trail: &mut Trail<A>,
    path: &[Branch],
    count: usize,
    rule: u64,
) -> Result<(), AllocError>
    ensures { OnOk result (map step_of trail.new ≡ map step_of trail.old ++ below_path path.now (spec.downward count (at_root rule))) }
{
    for i in 0..count {
        let node = path_further(alloc, path, i)?;
        push_step(alloc, trail, node.as_slice(), rule)?;
    }
    Ok(())
}

// And from the last up.
fn push_upward<A: Heap>(
    alloc: A,
    trail: &mut Trail<A>,
    path: &[Branch],
    count: usize,
    rule: u64,
    is_reverse: bool,
) -> Result<(), AllocError>
    ensures { OnOk result (map step_of trail.new ≡ map step_of trail.old ++ below_path path.now (spec.upward count (plain rule is_reverse))) }
{
    if count == 0 {
        return Ok(());
    }
    let node = path_further(alloc, path, count - 1)?;
    push_plain(alloc, trail, node.as_slice(), rule, is_reverse)?;
    push_upward(alloc, trail, path, count - 1, rule, is_reverse)
}

// Adds the steps that take a condition down so many left joins, make the lowest one inner, and bring it back, and then the ON.
fn push_making_inner<A: Heap>(
    alloc: A,
    trail: &mut Trail<A>,
    path: &[Branch],
    lefts: usize,
) -> Result<(), AllocError>
    ensures { OnOk result (map step_of trail.new ≡ map step_of trail.old ++ below_path path.now (spec.making_inner lefts)) }
{
    push_downward(alloc, trail, path, lefts, CHANGE_WITH_LEFT)?;
    let node = path_further(alloc, path, lefts)?;
    push_step(alloc, trail, node.as_slice(), MAKE_INNER)?;
    push_upward(alloc, trail, path, lefts, CHANGE_WITH_LEFT, true)?;
    let below = further(alloc, path, Branch::First)?;
    push_upward(
        alloc,
        trail,
        below.as_slice(),
        lefts,
        CHANGE_WITH_LEFT,
        true,
    )
}

// Adds the steps that make an entry inner by one of so many conditions, with some of them under it.
fn push_turning<A: Heap>(
    alloc: A,
    trail: &mut Trail<A>,
    count: usize,
    under: usize,
    lefts: usize,
) -> Result<(), AllocError>
    ensures { OnOk result (map step_of trail.new ≡ map step_of trail.old ++ spec.turning count under lefts) }
{
    let path = path_below(alloc, count.saturating_sub(1).saturating_sub(under))?;
    push_downward(alloc, trail, path.as_slice(), under, SWAP_FILTERS)?;
    let node = path_further(alloc, path.as_slice(), under)?;
    push_making_inner(alloc, trail, node.as_slice(), lefts)?;
    push_upward(alloc, trail, path.as_slice(), under, SWAP_FILTERS, false)?;
    push_upward(alloc, trail, &[], count, SWAP_FILTERS, false)
}

// Adds the simplified parts of an ON to the conditions, and the steps from the ON, the last condition, to them.
fn push_on<A: Heap>(
    alloc: A,
    trail: &mut Trail<A>,
    known: &mut Conditions<A>,
    on: &MovableExpr<A>,
) -> Result<(), AllocError>
    ensures trail { OnOk result (map step_of trail.new ≡ map step_of trail.old ++ spec.parting_on on.now) }
    ensures known { OnOk result (known.new ≡ known.old ++ planning.simplified_parts (planning.parts_of on.now)) }
{
    push_repeated(alloc, trail, 0, split_count(on), SPLIT_FILTER)?;
    let mut members = Items::new(alloc);
    algebra::push_parts(alloc, &mut members, on.copy(alloc)?)?;
    push_simplifying(alloc, trail, members.as_slice())?;
    let forms = algebra::all_simplified(alloc, members.as_slice())?;
    push_parting(alloc, trail, forms.as_slice())?;
    algebra::push_all_parts(alloc, known, forms)
}

// Makes an entry inner, with so many left joins after it, where one of the conditions makes it so: adds the steps, and its ON to
// the conditions. False where none does.
fn turn<A: Heap>(
    alloc: A,
    trail: &mut Trail<A>,
    known: &mut Conditions<A>,
    entry: usize,
    on: &MovableExpr<A>,
    lefts: usize,
) -> Result<bool, AllocError>
    ensures trail { OnOk result (map step_of trail.new ≡ map step_of trail.old ++ unwrap_or (option_map (spec.turning_at known.old on.now lefts) (planning.first_turning entry known.old)) []) }
    ensures known { OnOk result (known.new ≡ (if is_some (planning.first_turning entry known.old) then known.old ++ planning.simplified_parts (planning.parts_of on.now) else known.old)) }
    ensures turned { IfOk result (λ b. b ≡ is_some (planning.first_turning entry known.old)) }
{
    let Some(under) = first_turning(alloc, entry, known.as_slice())? else {
        return Ok(false);
    };
    push_turning(alloc, trail, known.len(), under, lefts)?;
    push_on(alloc, trail, known, on)?;
    Ok(true)
}

/// Makes the left joined entries from a number on inner, one after another, while one of the conditions makes them so: adds the
/// steps, and their ONs to the conditions. Gives the ONs of the entries that stay left joined.
pub(crate) fn turn_all<'o, A: Heap>(
    alloc: A,
    trail: &mut Trail<A>,
    known: &mut Conditions<A>,
    entry: usize,
    ons: &'o [MovableExpr<A>],
) -> Result<&'o [MovableExpr<A>], AllocError>
    requires { entry + length ons.now < 2 ^ 64 }
    ensures trail { OnOk result (map step_of trail.new ≡ map step_of trail.old ++ spec.turning_all entry known.old ons.now) }
    ensures known { OnOk result (known.new ≡ (planning.turned entry known.old ons.now).conditions) }
    ensures lefts { IfOk result (λ l. l.now ≡ (planning.turned entry known.old ons.now).lefts) }
{
    let [on, rest @ ..] = ons else {
        return Ok(ons);
    };
    if !turn(alloc, trail, known, entry, on, rest.len())? {
        return Ok(ons);
    }
    turn_all(alloc, trail, known, entry + 1, rest)
}
