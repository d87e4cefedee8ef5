//! What stands before and after the title of a node.

ghost use Rattle.std.specs.Prelude.{◌≡◌, ◌++◌, OnOk};
ghost use Rattle.std.specs.Fmt.{decimal};
ghost use Rattle.plan_trees.specs.PlanTrees as spec;

use itoa::Buffer;
use memory::{Heap, push_str};
use std::alloc::AllocError;

/// Six spaces for each node above.
pub(crate) fn push_indentation<A: Heap>(out: &mut Vec<u8, A>, depth: u64) -> Result<(), AllocError>
    ensures { OnOk result (out.new.items ≡ out.old.items ++ spec.indentation depth) }
{
    let mut left = depth;
    while left > 0 {
        push_str(out, "      ")?;
        left -= 1;
    }
    Ok(())
}

/// The text before a title.
pub(crate) fn push_start<A: Heap>(out: &mut Vec<u8, A>, depth: u64) -> Result<(), AllocError>
    ensures { OnOk result (out.new.items ≡ out.old.items ++ spec.node_start depth) }
{
    if depth == 0 {
        return Ok(());
    }
    push_indentation(out, depth - 1)?;
    push_str(out, "  ->  ")
}

// A cost.
fn push_cost<A: Heap>(out: &mut Vec<u8, A>, n: u128) -> Result<(), AllocError>
    ensures { OnOk result (out.new.items ≡ out.old.items ++ decimal n) }
{
    let mut buffer = Buffer::new();
    push_str(out, buffer.format(n))
}

/// The text after a title.
pub(crate) fn push_end<A: Heap>(
    out: &mut Vec<u8, A>,
    cost: u128,
    depth: u64,
) -> Result<(), AllocError>
    ensures { OnOk result (out.new.items ≡ out.old.items ++ spec.node_end cost depth) }
{
    if depth > 0 {
        return push_str(out, "\n");
    }
    push_str(out, "  (cost=")?;
    push_cost(out, cost)?;
    push_str(out, ")\n")
}
