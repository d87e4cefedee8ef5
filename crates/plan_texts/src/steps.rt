//! The steps of a plan's trail.

ghost use Rattle.std.specs.Prelude.{◌≡◌, IfOk, option_map};
ghost use Rattle.algebra.specs.View.{step_of};
ghost use Rattle.plan_texts.specs.Reading as spec;
ghost use Rattle.plan_texts.specs.View.{texts_of};

use crate::parts::read_path;
use algebra::Step;
use memory::{Heap, Items};
use std::alloc::AllocError;
use value::read_number;

// The number of a rule, and true where a minus after it reverses the rule.
fn read_rule(part: &str) -> Option<(u64, bool)>
    ensures { result ≡ spec.rule_at part.now }
{
    match part.strip_suffix('-') {
        Some(number) => Some((read_number(number)?, true)),
        None => Some((read_number(part)?, false)),
    }
}

// At most two arguments.
fn read_arguments<A: Heap>(alloc: A, parts: &[&str]) -> Result<Option<Items<u64, A>>, AllocError>
    ensures { IfOk result (λ arguments. arguments ≡ spec.arguments_at (texts_of parts.now)) }
{
    let mut arguments = Items::new(alloc);
    match parts {
        [] => {}
        [first] => match read_number(first) {
            Some(number) => arguments.push(number)?,
            None => return Ok(None),
        },
        [first, second] => match (read_number(first), read_number(second)) {
            (Some(p), Some(q)) => {
                arguments.push(p)?;
                arguments.push(q)?;
            }
            _ => return Ok(None),
        },
        _ => return Ok(None),
    }
    Ok(Some(arguments))
}

/// A step of the trail, by the parts of its line.
pub fn read_step<A: Heap>(alloc: A, parts: &[&str]) -> Result<Option<Step<A>>, AllocError>
    ensures { IfOk result (λ step. option_map step_of step ≡ spec.step_at (texts_of parts.now)) }
{
    let [rule, path, arguments @ ..] = parts else {
        return Ok(None);
    };
    let Some((rule, is_reverse)) = read_rule(rule) else {
        return Ok(None);
    };
    let Some(path) = read_path(alloc, path)? else {
        return Ok(None);
    };
    match read_arguments(alloc, arguments)? {
        Some(arguments) => Ok(Some(Step {
            rule,
            is_reverse,
            path,
            arguments,
        })),
        None => Ok(None),
    }
}
