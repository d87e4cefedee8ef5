//! The rows of an answer while they come.

ghost use Rattle.std.specs.Prelude.{◌≡◌, ◌++◌, [], ◌∷◌, List, Option, ℕ, OnOk, Result};
ghost use Rattle.memory.specs.Gives.{Gives};
ghost use Rattle.value.specs.Datum.{Row};
ghost use Rattle.value.specs.declared.faults.Fault as fault;
ghost use Rattle.expr.specs.declared.query.OutputKey as key;
ghost use Rattle.expr.specs.View.{bound_query_of};
ghost use Rattle.groups.specs.Stages.{Fate, gives, stage};
ghost use Rattle.answer_rows.specs.Growing.{only};
ghost use Rattle.report.specs.Answering.{HasPushed, HoldsRows};
ghost use Rattle.report.specs.Held.{held};
ghost use Rattle.report.specs.Ordered as spec;
ghost use Rattle.report.specs.Ordered.{in_order_of};

use answer_rows::AnswerRows;
use expr::{BoundQuery, OutputKey};
use groups::Stage;
use memory::{Failure, Heap};
use std::alloc::AllocError;
use value::Fault;

// Up to this limit the first rows alone are held.
const FEW: u64 = 64;

// Ends the unfinished row, and holds it, or, where the limit is small, the first rows in order alone.
fn keep_row<A: Heap>(
    keys: &[OutputKey],
    limit: Option<u64>,
    rows: &mut AnswerRows<A>,
) -> Result<(), AllocError>
    ensures { (all : List Row) → rows.old.rows ≡ held keys.now limit all →
        OnOk result (rows.new ≡ only (held keys.now limit (all ++ rows.old.unfinished ∷ []))) }
{
    match limit {
        Some(n) if n <= FEW => rows.finish_among_first(keys, n as usize),
        _ => rows.finish_row(),
    }
}

// All rows are sorted and then cut.
fn sorted_rows<A: Heap>(
    keys: &[OutputKey],
    limit: Option<u64>,
    mut rows: AnswerRows<A>,
) -> AnswerRows<A>
    ensures { result.rows ≡ spec.ordered keys.now limit rows.rows }
{
    rows.sort(keys);
    if let Some(n) = limit {
        rows.truncate(n as usize);
    }
    rows
}

// Of what is held of the rows those that the answer has, in order.
fn in_order<A: Heap>(keys: &[OutputKey], limit: Option<u64>, rows: AnswerRows<A>) -> AnswerRows<A>
    ensures { (all : List Row) → rows.rows ≡ held keys.now limit all → result.rows ≡ spec.ordered keys.now limit all }
{
    match limit {
        Some(n) if n <= FEW => rows,
        _ => sorted_rows(keys, limit, rows),
    }
}

/// The rows of an answer while they come: the first in order where the limit is small, else all, and the least fault.
#[derive(Drop)]
pub struct TakenRows<A: Heap> {
    /// The rows, and the values of the next one.
    pub(crate) rows: AnswerRows<A>,
    // The least fault; no value is given on.
    stage: Stage<(), A>,
}

impl<A: Heap> TakenRows<A> {
    /// No rows.
    pub fn new(alloc: A) -> TakenRows<A>
        ensures { (keys : List key.OutputKey) (limit : Option ℕ) → HoldsRows keys limit result [] }
    {
        TakenRows {
            rows: AnswerRows::new(alloc),
            stage: Stage::new(alloc),
        }
    }

    /// Ends the row whose values were pushed, or takes the fault of one of them.
    pub fn end_row(
        &mut self,
        query: &BoundQuery<A>,
        outcome: Result<(), Failure<Fault>>,
    ) -> Result<(), AllocError>
        ensures { let q = bound_query_of query.now in (due : Result Row fault.Fault) (fates : List (Fate Row)) → HasPushed q.order_by q.limit self.old fates outcome due →
            OnOk result (HoldsRows q.order_by q.limit self.new (fates ++ gives due ∷ [])) }
    {
        match outcome {
            Ok(()) => keep_row(query.order_by.as_slice(), query.limit, &mut self.rows),
            Err(failure) => {
                self.rows.forget_row();
                self.stage.add(Err(failure))
            }
        }
    }

    /// The rows in order and cut by the limit, or the least fault.
    pub fn end(self, query: &BoundQuery<A>) -> Result<AnswerRows<A>, Failure<Fault>>
        ensures { let q = bound_query_of query.now in (fates : List (Fate Row)) → HoldsRows q.order_by q.limit self fates →
            Gives (λ rows. rows.rows) result (in_order_of q.order_by q.limit (stage fates)) }
    {
        match self.stage.least {
            None => Ok(in_order(query.order_by.as_slice(), query.limit, self.rows)),
            Some(fault) => Err(Failure::Error(fault)),
        }
    }
}
