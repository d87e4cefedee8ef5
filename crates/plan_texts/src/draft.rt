//! A plan, line by line.

ghost use Rattle.std.specs.Prelude.{◌≡◌, ◌++◌, ◌∷◌, [], IfOk, map, option_map, Some};
ghost use Rattle.memory.specs.Gives.{Gives};
ghost use Rattle.row_ast.specs.View.{expr_of};
ghost use Rattle.plan_texts.specs.Plans as plans;
ghost use Rattle.plan_texts.specs.Reading as spec;
ghost use Rattle.plan_texts.specs.View.{draft_of, line_of, on_of, plan_code_of, plan_of};

use crate::line::Line;
use crate::plan::{OnCondition, Plan, PlanCode, PlanStep, SortColumn};
use expr::CodeStep;
use memory::{Failure, Heap, Items};
use row_ast::Expr;
use std::alloc::AllocError;

/// The lines so far.
#[derive(Drop)]
pub enum Draft<A: Heap> {
    /// None.
    Begun,
    /// A cost and filters.
    Costed {
        cost: u128,
        filters: Items<Expr<A>, A>,
    },
    /// ONs too.
    Conditioned {
        cost: u128,
        filters: Items<Expr<A>, A>,
        ons: Items<OnCondition<A>, A>,
    },
    /// A code too.
    Coded {
        cost: u128,
        filters: Items<Expr<A>, A>,
        ons: Items<OnCondition<A>, A>,
        code: PlanCode<A>,
    },
    /// A last sort too.
    Sorted {
        cost: u128,
        filters: Items<Expr<A>, A>,
        ons: Items<OnCondition<A>, A>,
        code: PlanCode<A>,
        sort: SortColumn,
    },
    /// A plan, with some of its trail.
    Whole(Plan<A>),
}

// The filters with one more, where it has the number that comes next.
fn with_filter<A: Heap>(
    cost: u128,
    filters: Items<Expr<A>, A>,
    number: u64,
    filter: Box<Expr<A>, A>,
) -> Result<Option<Draft<A>>, AllocError>
    ensures { IfOk result (λ d. option_map draft_of d ≡ spec.with_line (spec.Costed cost (map expr_of filters)) (spec.FilterLine number (expr_of filter.value))) }
{
    if u128::from(number) != filters.len() as u128 + 1 {
        return Ok(None);
    }
    let mut filters = filters;
    filters.push(Box::into_inner(filter))?;
    Ok(Some(Draft::Costed { cost, filters }))
}

// The ONs with one more.
fn with_on<A: Heap>(
    ons: Items<OnCondition<A>, A>,
    entry: u64,
    condition: Box<Expr<A>, A>,
) -> Result<Items<OnCondition<A>, A>, AllocError>
    ensures { IfOk result (λ all. map on_of all ≡ map on_of ons ++ record { entry = entry; condition = expr_of condition.value } ∷ []) }
{
    let mut ons = ons;
    let condition = Box::into_inner(condition);
    ons.push(OnCondition { entry, condition })?;
    Ok(ons)
}

// A code of one step.
fn of_step<A: Heap>(alloc: A, step: CodeStep) -> Result<PlanCode<A>, AllocError>
    ensures { IfOk result (λ code. plan_code_of code ≡ plans.Steps (spec.first_step step ∷ [])) }
{
    let mut steps = Items::new(alloc);
    steps.push(PlanStep {
        step,
        is_left: false,
    })?;
    Ok(PlanCode::Steps(steps))
}

// Filters and ONs with one more line.
fn conditioned_with<A: Heap>(
    alloc: A,
    cost: u128,
    filters: Items<Expr<A>, A>,
    ons: Items<OnCondition<A>, A>,
    line: Line<A>,
) -> Result<Option<Draft<A>>, AllocError>
    ensures { IfOk result (λ d. option_map draft_of d ≡ spec.after_filters cost (map expr_of filters) (map on_of ons) (line_of line)) }
{
    match line {
        Line::On { entry, condition } => {
            let ons = with_on(ons, entry, condition)?;
            Ok(Some(Draft::Conditioned { cost, filters, ons }))
        }
        Line::Empty => Ok(Some(Draft::Coded {
            cost,
            filters,
            ons,
            code: PlanCode::Empty,
        })),
        Line::First(step) => {
            let code = of_step(alloc, step)?;
            Ok(Some(Draft::Coded {
                cost,
                filters,
                ons,
                code,
            }))
        }
        _ => Ok(None),
    }
}

// A cost and filters with one more line.
fn costed_with<A: Heap>(
    alloc: A,
    cost: u128,
    filters: Items<Expr<A>, A>,
    line: Line<A>,
) -> Result<Option<Draft<A>>, AllocError>
    ensures { IfOk result (λ d. option_map draft_of d ≡ spec.with_line (spec.Costed cost (map expr_of filters)) (line_of line)) }
{
    match line {
        Line::Filter { number, filter } => with_filter(cost, filters, number, filter),
        other => conditioned_with(alloc, cost, filters, Items::new(alloc), other),
    }
}

// A code with one more step; none where it has no steps.
fn with_step<A: Heap>(code: PlanCode<A>, step: PlanStep) -> Result<Option<PlanCode<A>>, AllocError>
    ensures { IfOk result (λ c. option_map plan_code_of c ≡ spec.with_step (plan_code_of code) step) }
{
    match code {
        PlanCode::Empty => Ok(None),
        PlanCode::Steps(steps) => {
            let mut steps = steps;
            steps.push(step)?;
            Ok(Some(PlanCode::Steps(steps)))
        }
    }
}

// A code with one more line.
fn coded_with<A: Heap>(
    alloc: A,
    cost: u128,
    filters: Items<Expr<A>, A>,
    ons: Items<OnCondition<A>, A>,
    code: PlanCode<A>,
    line: Line<A>,
) -> Result<Option<Draft<A>>, AllocError>
    ensures { IfOk result (λ d. option_map draft_of d ≡ spec.with_line (spec.Coded cost (map expr_of filters) (map on_of ons) (plan_code_of code)) (line_of line)) }
{
    match line {
        Line::Join(step) => match with_step(code, step)? {
            Some(code) => Ok(Some(Draft::Coded {
                cost,
                filters,
                ons,
                code,
            })),
            None => Ok(None),
        },
        Line::Sort(sort) => Ok(Some(Draft::Sorted {
            cost,
            filters,
            ons,
            code,
            sort,
        })),
        Line::Trail => Ok(Some(Draft::Whole(Plan {
            cost,
            filters,
            ons,
            code,
            sort: None,
            trail: Items::new(alloc),
        }))),
        _ => Ok(None),
    }
}

// A last sort with one more line.
fn sorted_with<A: Heap>(
    alloc: A,
    cost: u128,
    filters: Items<Expr<A>, A>,
    ons: Items<OnCondition<A>, A>,
    code: PlanCode<A>,
    sort: SortColumn,
    line: Line<A>,
) -> Option<Draft<A>>
    ensures { option_map draft_of result ≡ spec.with_line (spec.Sorted cost (map expr_of filters) (map on_of ons) (plan_code_of code) sort) (line_of line) }
{
    match line {
        Line::Trail => Some(Draft::Whole(Plan {
            cost,
            filters,
            ons,
            code,
            sort: Some(sort),
            trail: Items::new(alloc),
        })),
        _ => None,
    }
}

// A plan with one more line.
fn whole_with<A: Heap>(plan: Plan<A>, line: Line<A>) -> Result<Option<Draft<A>>, AllocError>
    ensures { IfOk result (λ d. option_map draft_of d ≡ spec.with_line (spec.Whole (plan_of plan)) (line_of line)) }
{
    match line {
        Line::Step(step) => {
            let mut plan = plan;
            plan.trail.push(step)?;
            Ok(Some(Draft::Whole(plan)))
        }
        _ => Ok(None),
    }
}

impl<A: Heap> Draft<A> {
    /// The draft with one more line, where the line may stand there.
    pub fn with_line(self, alloc: A, line: Line<A>) -> Result<Option<Draft<A>>, AllocError>
        ensures { IfOk result (λ d. option_map draft_of d ≡ spec.with_line (draft_of self) (line_of line)) }
    {
        match self {
            Draft::Begun => match line {
                Line::Cost(cost) => Ok(Some(Draft::Costed {
                    cost,
                    filters: Items::new(alloc),
                })),
                _ => Ok(None),
            },
            Draft::Costed { cost, filters } => costed_with(alloc, cost, filters, line),
            Draft::Conditioned { cost, filters, ons } => {
                conditioned_with(alloc, cost, filters, ons, line)
            }
            Draft::Coded {
                cost,
                filters,
                ons,
                code,
            } => coded_with(alloc, cost, filters, ons, code, line),
            Draft::Sorted {
                cost,
                filters,
                ons,
                code,
                sort,
            } => Ok(sorted_with(alloc, cost, filters, ons, code, sort, line)),
            Draft::Whole(plan) => whole_with(plan, line),
        }
    }

    /// The plan, where it is whole and nothing is left of the text; else the number of the next line.
    pub fn finish(self, rest: &[u8], next: u64) -> Result<Plan<A>, Failure<u64>>
        ensures { Gives plan_of result (spec.plan_in next (draft_of self) rest.now) }
    {
        match self {
            Draft::Whole(plan) => {
                if rest.is_empty() {
                    Ok(plan)
                } else {
                    Err(Failure::Error(next))
                }
            }
            _ => Err(Failure::Error(next)),
        }
    }
}
