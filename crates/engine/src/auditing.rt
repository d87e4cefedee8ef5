//! The audit of a plan's text.

ghost use Rattle.std.specs.Prelude.{◌≡◌, ℕ, IfOk, length, map};
ghost use Rattle.expr.specs.View.{code_of};
ghost use Rattle.algebra.specs.View.{step_of};
ghost use Rattle.trailcheck.specs.Verdicts.{verdict};
ghost use Rattle.row_ast.specs.View.{query_of};
ghost use Rattle.row_terms.specs.View.{term_of};
ghost use Rattle.row_terms.specs.Written as row_terms;
ghost use Rattle.trailcheck.specs.View.{setting_of};
ghost use Rattle.plan_texts.specs.Reading as plan_texts;
ghost use Rattle.plan_texts.specs.View.{plan_of};
ghost use Rattle.bound_plans.specs.Entries as bound_plans;
ghost use Rattle.scope.specs.View.{entries_of};
ghost use Rattle.resolve.specs.View.{bound_of};
ghost use Rattle.analysis.specs.Analysis.{admitted_query};
ghost use Rattle.engine.specs.Audits as spec;
ghost use Rattle.engine.specs.Settings as settings;
ghost use Rattle.engine.specs.View.{audit_of};

use crate::setting::setting;
use algebra::Step;
use analysis::{admit, read_query};
use bound_plans::{is_of_query, plain_code, read_trail};
use catalog::Catalog;
use expr::Code;
use memory::{Failure, Heap};
use plan_texts::Plan;
use replies::Reply;
use resolve::Bound;
use row_ast::Query;
use row_terms::{Term, written};
use scope::Entry;
use std::alloc::AllocError;
use trailcheck::{Reason, Refusal, Setting, Verdict, judge};

/// The outcome of the audit of a plan.
#[derive(Drop)]
pub(crate) enum Audit<A: Heap> {
    /// The refusal or denial of the text.
    Replied(Reply<A>),
    /// The first line of the plan that cannot be read, from 1.
    Unreadable(u64),
    /// The verdict on the plan.
    Judged(Verdict),
}

/// The checker's verdict on a code and a trail for a role's bound query (`trailcheck::judge`, by the guards, indexes and conditions
/// that the catalogue gives): accepted where the code is admissible and the steps lead from the written term to its shape.
pub fn check<A: Heap>(
    alloc: A,
    catalog: &Catalog<A>,
    role: &str,
    bound: &Bound<'_, A>,
    trail: &[Step<A>],
    code: &Code<A>,
) -> Result<Verdict, AllocError>
    ensures { IfOk result (λ v. v ≡ verdict (settings.setting catalog.now role.now (bound_of bound.now)) (row_terms.written (length (bound_of bound.now).entries) (bound_of bound.now).query) (map step_of trail.now) (code_of code.now)) }
{
    let written = written(alloc, bound.entries.len(), &bound.query)?;
    let setting = &setting(alloc, catalog, role, bound)?;
    judge(alloc, setting, written, trail, code)
}

// The checker's verdict on code and trail, where the filters are the planning list, and ONs and words those of the left joined
// entries.
fn judged<A: Heap>(
    alloc: A,
    setting: &Setting<A>,
    written: Term<A>,
    entries: &[Entry<'_, A>],
    plan: &Plan<A>,
) -> Result<Verdict, AllocError>
    ensures { IfOk result (λ v. v ≡ spec.judged (setting_of setting.now) (term_of written) (entries_of entries.now) (plan_of plan.now)) }
{
    let conditions = setting.conditions.as_slice();
    if !is_of_query(alloc, entries, conditions, setting.lefts.as_slice(), plan)? {
        return Ok(Verdict::Refused(Refusal {
            line: 0,
            reason: Reason::Code,
        }));
    }
    let code = plain_code(alloc, &plan.code)?;
    judge(alloc, setting, written, plan.trail.as_slice(), &code)
}

// The verdict on a plan of a role's bound query.
fn judged_plan<A: Heap>(
    alloc: A,
    catalog: &Catalog<A>,
    role: &str,
    bound: &Bound<'_, A>,
    plan: &Plan<A>,
) -> Result<Verdict, AllocError>
    ensures { IfOk result (λ v. v ≡ spec.judged (settings.setting catalog.now role.now (bound_of bound.now)) (row_terms.written (length (bound_of bound.now).entries) (bound_of bound.now).query) (bound_of bound.now).entries (plan_of plan.now)) }
{
    let setting = setting(alloc, catalog, role, bound)?;
    let entries = bound.entries.as_slice();
    let written = written(alloc, entries.len(), &bound.query)?;
    judged(alloc, &setting, written, entries, plan)
}

// The audit of a plan's text for a role's bound query.
fn audit_bound<A: Heap>(
    alloc: A,
    catalog: &Catalog<A>,
    role: &str,
    bound: &Bound<'_, A>,
    plan: &[u8],
) -> Result<Audit<A>, AllocError>
    ensures { IfOk result (λ audit. audit_of audit ≡ spec.audit_of catalog.now role.now (bound_of bound.now) (plan_texts.plan_at (bound_plans.plan_entries (bound_of bound.now).entries) plan.now)) }
{
    match read_trail(alloc, bound.entries.as_slice(), plan) {
        Ok(plan) => Ok(Audit::Judged(judged_plan(alloc, catalog, role, bound, &plan)?)),
        Err(Failure::Error(line)) => Ok(Audit::Unreadable(line)),
        Err(Failure::OutOfMemory) => Err(AllocError),
    }
}

// The same of a query.
fn audit_query<A: Heap>(
    alloc: A,
    catalog: &Catalog<A>,
    role: &str,
    query: &Query<A>,
    plan: &[u8],
) -> Result<Audit<A>, AllocError>
    ensures { IfOk result (λ audit. audit_of audit ≡ spec.admitted_audit catalog.now role.now plan.now (admitted_query catalog.now role.now (query_of query.now))) }
{
    match admit(alloc, catalog, role, query)? {
        Ok(bound) => audit_bound(alloc, catalog, role, &bound, plan),
        Err(reply) => Ok(Audit::Replied(reply)),
    }
}

/// The refusal or denial of a role's text, or else what its plan's text is.
pub(crate) fn audit_plan<A: Heap>(
    alloc: A,
    catalog: &Catalog<A>,
    role: &str,
    text: &str,
    plan: &[u8],
) -> Result<Audit<A>, AllocError>
    ensures { IfOk result (λ audit. audit_of audit ≡ spec.audit catalog.now role.now text.now plan.now) }
{
    match read_query(alloc, catalog, role, text)? {
        Ok(query) => {
            let audit = audit_query(alloc, catalog, role, &query, plan);
            drop(query);
            audit
        }
        Err(reply) => Ok(Audit::Replied(reply)),
    }
}
