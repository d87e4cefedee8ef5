//! The verdict on a trail.

ghost use Rattle.std.specs.Prelude.{◌≡◌, IfOk, map};
ghost use Rattle.expr.specs.View.{code_of};
ghost use Rattle.row_terms.specs.View.{term_of};
ghost use Rattle.algebra.specs.View.{step_of};
ghost use Rattle.trailcheck.specs.Verdicts as spec;
ghost use Rattle.trailcheck.specs.View.{setting_of};

use crate::admissible::is_admissible;
use crate::replaying::replay;
use crate::same_term::is_same_term;
use crate::setting::Setting;
use crate::shapes::shape;
use crate::verdict::{Reason, Refusal, Verdict};
use algebra::Step;
use expr::Code;
use memory::{Failure, Heap};
use row_terms::Term;
use std::alloc::AllocError;

/// The verdict on a trail: accepted where the code is admissible and the steps lead from the written term to its shape. The
/// written term and the shape then mean the same in every content (`law_accepted_means_same`).
pub fn judge<A: Heap>(
    alloc: A,
    setting: &Setting<A>,
    written: Term<A>,
    trail: &[Step<A>],
    code: &Code<A>,
) -> Result<Verdict, AllocError>
    ensures { IfOk result (λ v. v ≡ spec.verdict (setting_of setting.now) (term_of written) (map step_of trail.now) (code_of code.now)) }
{
    if !is_admissible(alloc, setting, code)? {
        return Ok(Verdict::Refused(Refusal {
            line: 0,
            reason: Reason::Code,
        }));
    }
    let wanted = shape(alloc, setting, code)?;
    match replay(alloc, setting.frame.as_slice(), trail, written) {
        Ok(term) => {
            if is_same_term(&term, &wanted) {
                return Ok(Verdict::Accepted);
            }
            Ok(Verdict::Refused(Refusal {
                line: trail.len() as u64 + 1,
                reason: Reason::End,
            }))
        }
        Err(Failure::Error(refusal)) => Ok(Verdict::Refused(refusal)),
        Err(Failure::OutOfMemory) => Err(AllocError),
    }
}
