//! Asking.

ghost use Rattle.std.specs.Prelude.{◌≡◌, ℕ, List, None, Ok, Some, IfOk, IsOk, true};
ghost use Rattle.value.specs.Names.{Name};
ghost use Rattle.row_ast.specs.View.{query_of};
ghost use Rattle.expr.specs.View.{bound_items_of};
ghost use Rattle.resolve.specs.View.{bound_of};
ghost use Rattle.catalog.specs.Catalog.{Catalog};
ghost use Rattle.replies.specs.Reply as report;
ghost use Rattle.replies.specs.View.{reply_of};
ghost use Rattle.analysis.specs.Analysis.{is_refused_at_once, query_read, refusal_to};
ghost use Rattle.store.specs.Database.{Rows, rows_of};
ghost use Rattle.engine.specs.Answer as spec;
ghost use Rattle.engine.specs.Answer.{IsAnswer, answer_reply, reply_to};
ghost use Rattle.engine.specs.Held.{HoldsEachTable};
ghost use Rattle.engine.specs.Plans.{IsAdmitted, IsPlanFor};
ghost use Rattle.engine.specs.SeenTables.{AreSeenIn};
ghost use Rattle.engine.specs.Serving.{IsReply};

use crate::answer::answer_rows;
use crate::plans::Plan;
use crate::preparing::{law_nothing_known, plan_with};
use analysis::{admit, read_query};
use expr::BoundItem;
use memory::{Failure, Heap, Items, Text};
use replies::Reply;
use resolve::Bound;
use row_ast::Query;
use seen_tables::Seen;
use std::alloc::AllocError;
use store::Store;
use syntax::law_queries_have_tables;
use value::Refusal;

fn headings<A: Heap>(alloc: A, items: &[BoundItem<A>]) -> Result<Items<Text<A>, A>, AllocError>
    ensures { IfOk result (λ headings. headings ≡ spec.headings (bound_items_of items.now)) }
{
    let mut headings = Items::new(alloc);
    for item in items {
        headings.push(Text::new(alloc, item.heading.as_str())?)?;
    }
    Ok(headings)
}

/// The reply to a role's bound query under its plan: the rows, with their headings, or the first fault of their evaluation. The
/// guards are those of the plan; rows and indexes are the present ones. Where it is known which rows the role sees of a table, no
/// guard is tested. It fails where memory runs out.
pub fn run_plan<A: Heap>(
    alloc: A,
    store: &Store<A>,
    role: &str,
    bound: &Bound<'_, A>,
    plan: &Plan<A>,
    seen: &Seen<A>,
) -> Result<Reply<A>, AllocError>
    requires admitted { IsAdmitted store.now.catalog role.now (bound_of bound.now) }
    requires plan { IsPlanFor store.now role.now (bound_of bound.now) plan.now }
    requires seen { AreSeenIn store.now seen.now }
    ensures { IfOk result (λ reply. reply_of reply ≡ answer_reply store.now.catalog (rows_of store.now) role.now (bound_of bound.now)) }
{
    law_queries_have_tables();
    match answer_rows(alloc, store, role, bound, plan, seen) {
        Ok(rows) => {
            let headings = headings(alloc, bound.query.items.as_slice())?;
            Ok(Reply::Rows { headings, rows })
        }
        Err(Failure::Error(fault)) => Ok(Reply::Faulted { fault }),
        Err(Failure::OutOfMemory) => Err(AllocError),
    }
}

// The rows of a bound query, or its first fault, under a plan of its own.
fn answer_bound<A: Heap>(
    alloc: A,
    store: &Store<A>,
    role: &str,
    bound: &Bound<'_, A>,
) -> Result<Reply<A>, AllocError>
    requires { IsAdmitted store.now.catalog role.now (bound_of bound.now) }
    ensures { IfOk result (λ reply. reply_of reply ≡ answer_reply store.now.catalog (rows_of store.now) role.now (bound_of bound.now)) }
{
    law_nothing_known();
    let mut seen = Seen::new(alloc);
    let plan = plan_with(alloc, store, role, bound, &mut seen)?;
    run_plan(alloc, store, role, bound, &plan, &seen)
}

// The refusal or denial of a query, or its rows or first fault.
fn answer_query<A: Heap>(
    alloc: A,
    store: &Store<A>,
    role: &str,
    text: &str,
    query: &Query<A>,
) -> Result<Reply<A>, AllocError>
    requires { query_read store.now.catalog role.now text.now ≡ Ok (query_of query.now) }
    ensures { IfOk result (λ reply. reply_of reply ≡ reply_to store.now.catalog (rows_of store.now) role.now text.now) }
{
    match admit(alloc, store.catalog(), role, query)? {
        Ok(bound) => answer_bound(alloc, store, role, &bound),
        Err(reply) => Ok(reply),
    }
}

// The reply to a role's text.
fn answer<A: Heap>(
    alloc: A,
    store: &Store<A>,
    role: &str,
    text: &str,
) -> Result<Reply<A>, AllocError>
    ensures reply { IfOk result (λ reply. reply_of reply ≡ reply_to store.now.catalog (rows_of store.now) role.now text.now) }
    ensures at_once { is_refused_at_once store.now.catalog role.now text.now ≡ true → IsOk result }
{
    match read_query(alloc, store.catalog(), role, text)? {
        Ok(query) => {
            let reply = answer_query(alloc, store, role, text, &query);
            drop(query);
            reply
        }
        Err(reply) => Ok(reply),
    }
}

/// The reply to a role's text: a refusal, a denial, the rows, or the first fault of their evaluation. Where memory runs out
/// it is the refusal 53200. `ask(alloc, &store, "root", "SELECT id FROM t")` is `Reply::Rows` with the heading `id`.
pub fn ask<A: Heap>(alloc: A, store: &Store<A>, role: &str, text: &str) -> Reply<A>
    ensures reply { IsReply (reply_of result) (reply_to store.now.catalog (rows_of store.now) role.now text.now) }
    // An unknown role and a text that is too long are refused without memory.
    ensures at_once { is_refused_at_once store.now.catalog role.now text.now ≡ true → reply_of result ≡ reply_to store.now.catalog (rows_of store.now) role.now text.now }
{
    match answer(alloc, store, role, text) {
        Ok(reply) => reply,
        Err(_) => Reply::Refused {
            code: Refusal::OutOfMemory,
            offset: None,
        },
    }
}

/// A refusal or denial is the reply, whatever the rows; without one the reply is rows or a fault.
pub fn law_refusals_read_no_row()
    ensures refused { (catalog : Catalog) (rows : Rows) (role : Name) (text : List ℕ) (reply : report.Reply) → refusal_to catalog role text ≡ Some reply → reply_to catalog rows role text ≡ reply }
    ensures otherwise { (catalog : Catalog) (rows : Rows) (role : Name) (text : List ℕ) → refusal_to catalog role text ≡ None → IsAnswer (reply_to catalog rows role text) }
{}

/// Each table of a query that is answered has its contents in the store, with the columns of the catalogue: that a table is
/// missing, whose rows would be none, never comes up.
pub fn law_each_table_is_held()
    ensures { HoldsEachTable }
{}
