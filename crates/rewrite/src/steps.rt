//! Steps at the nodes below a path.

ghost use Rattle.std.specs.Prelude.{◌≡◌, ◌++◌, ◌∷◌, [], IfOk, OnOk, map, replicate};
ghost use Rattle.algebra.specs.View.{step_of};
ghost use Rattle.rewrite.specs.Trails.{plain, at_root, below_path};

use algebra::Step;
use memory::{Heap, Items};
use row_terms::Branch;
use std::alloc::AllocError;

// A copy of the path.
fn copied<A: Heap>(alloc: A, path: &[Branch]) -> Result<Items<Branch, A>, AllocError>
    ensures { IfOk result (λ p. p ≡ path.now) }
{
    Ok(Items::from(Vec::from_slice(alloc, path)?))
}

/// The path and one more branch.
pub(crate) fn further<A: Heap>(
    alloc: A,
    path: &[Branch],
    branch: Branch,
) -> Result<Items<Branch, A>, AllocError>
    ensures { IfOk result (λ p. p ≡ path.now ++ branch ∷ []) }
{
    let mut path = copied(alloc, path)?;
    path.push(branch)?;
    Ok(path)
}

/// The path and so many branches more, each below a filter or on the left of a join.
pub(crate) fn path_further<A: Heap>(
    alloc: A,
    path: &[Branch],
    filters: usize,
) -> Result<Items<Branch, A>, AllocError>
    ensures { IfOk result (λ p. p ≡ path.now ++ replicate filters Branch.First) }
{
    let mut node = copied(alloc, path)?;
    for _ in 0..filters {
        node.push(Branch::First)?;
    }
    Ok(node)
}

/// The path to the node below so many filters.
pub(crate) fn path_below<A: Heap>(alloc: A, filters: usize) -> Result<Items<Branch, A>, AllocError>
    ensures { IfOk result (λ p. p ≡ replicate filters Branch.First) }
{
    path_further(alloc, &[], filters)
}

/// Adds the step by a rule in a direction, without arguments, at the node of the path.
pub(crate) fn push_plain<A: Heap>(
    alloc: A,
    trail: &mut Items<Step<A>, A>,
    path: &[Branch],
    rule: u64,
    is_reverse: bool,
) -> Result<(), AllocError>
    ensures { OnOk result (map step_of trail.new ≡ map step_of trail.old ++ below_path path.now (plain rule is_reverse ∷ [])) }
{
    let path = copied(alloc, path)?;
    trail.push(Step {
        rule,
        is_reverse,
        path,
        arguments: Items::new(alloc),
    })
}

/// The same from left to right.
pub(crate) fn push_step<A: Heap>(
    alloc: A,
    trail: &mut Items<Step<A>, A>,
    path: &[Branch],
    rule: u64,
) -> Result<(), AllocError>
    ensures { OnOk result (map step_of trail.new ≡ map step_of trail.old ++ below_path path.now (at_root rule ∷ [])) }
{
    push_plain(alloc, trail, path, rule, false)
}

/// The same step; the path to the node below a branch there.
pub(crate) fn step_down<A: Heap>(
    alloc: A,
    trail: &mut Items<Step<A>, A>,
    path: &[Branch],
    rule: u64,
    branch: Branch,
) -> Result<Items<Branch, A>, AllocError>
    ensures path { IfOk result (λ p. p ≡ path.now ++ branch ∷ []) }
    ensures step { OnOk result (map step_of trail.new ≡ map step_of trail.old ++ below_path path.now (at_root rule ∷ [])) }
{
    push_step(alloc, trail, path, rule)?;
    further(alloc, path, branch)
}
