//! Explaining: the text of the plan by which a query is answered.

ghost use Rattle.std.specs.Prelude.{◌≡◌, ◌≢◌, ◌<◌, ◌≤◌, ℕ, List, IfOk, length, map, option_map, true};
ghost use Rattle.value.specs.Names.{Name};
ghost use Rattle.row_ast.specs.View.{expr_of, query_of};
ghost use Rattle.expr.specs.Conjuncts.{movable_conjuncts};
ghost use Rattle.scope.specs.View.{entries_of};
ghost use Rattle.catalog.specs.Catalog.{Catalog};
ghost use Rattle.algebra.specs.View.{step_of};
ghost use Rattle.planning.specs.Listing.{simplifying};
ghost use Rattle.query_laws.specs.LeftJoins.{HasLeftJoins};
ghost use Rattle.trailcheck.specs.View.{setting_of};
ghost use Rattle.value.specs.Limits.{most_conjuncts, most_entries};
ghost use Rattle.planning.specs.LastSort.{last_sort};
ghost use Rattle.planning.specs.Plans.{IsPlan};
ghost use Rattle.plan_texts.specs.View.{plan_of};
ghost use Rattle.bound_plans.specs.LeftJoins.{inner_count, marked_code, named_ons};
ghost use Rattle.bound_plans.specs.Named.{named};
ghost use Rattle.resolve.specs.EntryTables.{AreTables};
ghost use Rattle.resolve.specs.View.{bound_of};
ghost use Rattle.syntax.specs.Limits.{within_limits};
ghost use Rattle.output.specs.Sent.{IsSent};
ghost use Rattle.replies.specs.Reply.{no_memory, reply_status};
ghost use Rattle.replies.specs.ReplyText.{reply_text};
ghost use Rattle.replies.specs.View.{reply_of};
ghost use Rattle.analysis.specs.Analysis.{admitted_query};
ghost use Rattle.store.specs.Database.{Rows, rows_of};
ghost use Rattle.engine.specs.Explained as spec;
ghost use Rattle.engine.specs.Explained.{explained, explained_query, explained_status, explained_text};
ghost use Rattle.engine.specs.Hidden.{SeesSame};
ghost use Rattle.engine.specs.Readable.{ReadsSame};
ghost use Rattle.engine.specs.SeenStatistics.{seen_statistics};
ghost use Rattle.engine.specs.SeenTables.{AreSeenIn};
ghost use Rattle.engine.specs.Serving.{IsExplained};

use crate::preparing::{each_of, law_nothing_known};
use crate::seen_statistics::seen_statistics;
use crate::setting::setting_with;
use algebra::Step;
use analysis::{admit, read_query};
use bound_plans::{inner_count, marked_code, named, named_ons, write_trail};
use expr::{ColumnId, MovableExpr};
use memory::{Heap, Items};
use output::{Out, send};
use plan_texts::SortColumn;
use planning::{Plan, Simplified, simplify};
use replies::{Reply, reply_status, reply_text};
use resolve::Bound;
use row_ast::{Expr, Query};
use scope::Entry;
use seen_tables::Seen;
use std::alloc::AllocError;
use store::{Store, column_number};
use syntax::{law_parsing_is_determined, law_queries_have_tables};

// The trees of conditions, each column by the alias of its entry.
fn named_conditions<A: Heap>(
    alloc: A,
    entries: &[Entry<'_, A>],
    conditions: &[MovableExpr<A>],
) -> Result<Items<Expr<A>, A>, AllocError>
    ensures { IfOk result (λ all. map expr_of all ≡ map (named (entries_of entries.now)) conditions.now) }
{
    let mut all = Items::new(alloc);
    for condition in conditions {
        let tree = named(alloc, entries, condition.expression())?;
        all.push(Box::into_inner(tree))?;
    }
    Ok(all)
}

// A column by its numbers, from 1.
fn sort_column(id: ColumnId) -> SortColumn
    ensures { result ≡ spec.sort_column id }
{
    SortColumn {
        entry: column_number(id.entry),
        column: column_number(id.column),
    }
}

// The column of the last sort of a plan, if it has one.
fn last_sort<A: Heap>(plan: &Plan<'_, A>) -> Option<SortColumn>
    ensures { result ≡ option_map spec.sort_column (last_sort plan.now.problem plan.now.code) }
{
    match plan.last_sort() {
        Some(id) => Some(sort_column(id)),
        None => None,
    }
}

// A plan as its text has it, its filters the conditions, and these the ONs of its left joined entries; the trail begins with those
// steps, which simplify the query.
fn text_plan<A: Heap>(
    alloc: A,
    entries: &[Entry<'_, A>],
    conditions: &[MovableExpr<A>],
    lefts: &[MovableExpr<A>],
    plan: Plan<'_, A>,
    trail: Items<Step<A>, A>,
) -> Result<plan_texts::Plan<A>, AllocError>
    requires { map step_of trail ≡ simplifying plan.query }
    ensures value { IfOk result (λ p. plan_of p ≡ record { cost = plan.entry.cost; filters = map (named (entries_of entries.now)) conditions.now; ons = named_ons (entries_of entries.now) lefts.now; code = marked_code (inner_count (entries_of entries.now) lefts.now) plan.entry.code; sort = option_map spec.sort_column (last_sort plan.entry.problem plan.entry.code); trail = plan.entry.trail }) }
    ensures plan { IfOk result (λ _. IsPlan plan.entry) }
{
    let filters = named_conditions(alloc, entries, conditions)?;
    let ons = named_ons(alloc, entries, lefts)?;
    let cost = plan.cost();
    let sort = last_sort(&plan);
    let (code, trail) = plan.into_parts(alloc, trail)?;
    let code = marked_code(alloc, inner_count(entries, lefts), &code)?;
    Ok(plan_texts::Plan {
        cost,
        filters,
        ons,
        code,
        sort,
        trail,
    })
}

// The text of the plan of a role's bound query.
fn best_text<A: Heap>(
    alloc: A,
    store: &Store<A>,
    role: &str,
    bound: &Bound<'_, A>,
    seen: &mut Seen<A>,
) -> Result<Vec<u8, A>, AllocError>
    requires tables { AreTables store.now.catalog (bound_of bound.now).entries }
    requires few { length (bound_of bound.now).entries ≤ most_entries }
    requires conjuncts { length (movable_conjuncts (bound_of bound.now).query) ≤ most_conjuncts }
    requires lefts { HasLeftJoins (bound_of bound.now) }
    requires seen { AreSeenIn store.now seen.old }
    ensures text { IfOk result (λ text. text.items ≡ spec.best_text store.now.catalog role.now (bound_of bound.now) (seen_statistics store.now.catalog (rows_of store.now) role.now (bound_of bound.now))) }
    ensures seen { AreSeenIn store.now seen.new }
{
    let entries = bound.entries.as_slice();
    let Simplified {
        trail,
        conditions,
        lefts,
    } = simplify(alloc, &bound.query)?;
    let setting = setting_with(alloc, store.catalog(), role, bound, conditions, lefts)?;
    let frame = setting.frame.as_slice();
    let statistics = seen_statistics(alloc, store, role, bound, frame, seen)?;
    let each = each_of(alloc, statistics.as_slice())?;
    let found = Plan::new(alloc, &bound.query, &setting, &each)?;
    let conditions = setting.conditions.as_slice();
    let lefts = setting.lefts.as_slice();
    let plan = text_plan(alloc, entries, conditions, lefts, found, trail)?;
    write_trail(alloc, entries, &plan)
}

// The text of a refusal or denial, and its status.
fn refused<A: Heap>(alloc: A, reply: &Reply<A>) -> Result<(Vec<u8, A>, u8), AllocError>
    ensures { IfOk result (λ r. (r.0.items ≡ reply_text (reply_of reply.now)) × (r.1 ≡ reply_status (reply_of reply.now)) × (r.1 < 8)) }
{
    Ok((reply_text(alloc, reply)?, reply_status(reply)))
}

// The text of a query's plan and status 0; or the text of its refusal or denial, and the status of that.
fn explained_query<A: Heap>(
    alloc: A,
    store: &Store<A>,
    role: &str,
    query: &Query<A>,
    seen: &mut Seen<A>,
) -> Result<(Vec<u8, A>, u8), AllocError>
    requires limits { within_limits (query_of query.now) ≡ true }
    requires from { 0 < length (query_of query.now).from }
    requires seen { AreSeenIn store.now seen.old }
    ensures text { IfOk result (λ r. spec.IsExplanation r.0.items r.1 (explained_query store.now.catalog (rows_of store.now) role.now (admitted_query store.now.catalog role.now (query_of query.now)))) }
    ensures seen { AreSeenIn store.now seen.new }
{
    match admit(alloc, store.catalog(), role, query)? {
        Ok(bound) => Ok((best_text(alloc, store, role, &bound, seen)?, 0)),
        Err(reply) => refused(alloc, &reply),
    }
}

// The same of a text.
fn explained<A: Heap>(
    alloc: A,
    store: &Store<A>,
    role: &str,
    text: &str,
    seen: &mut Seen<A>,
) -> Result<(Vec<u8, A>, u8), AllocError>
    requires { AreSeenIn store.now seen.old }
    ensures text { IfOk result (λ r. spec.IsExplanation r.0.items r.1 (explained store.now.catalog (rows_of store.now) role.now text.now)) }
    ensures seen { AreSeenIn store.now seen.new }
{
    law_parsing_is_determined();
    law_queries_have_tables();
    match read_query(alloc, store.catalog(), role, text)? {
        Ok(query) => {
            let explained = explained_query(alloc, store, role, &query, seen);
            drop(query);
            explained
        }
        Err(reply) => refused(alloc, &reply),
    }
}

/// Writes the text of the plan by which a role's query is answered (PostgreSQL: EXPLAIN), and gives its status: 0 a plan,
/// with its estimated cost in steps of work, the planning list, the code, a last sort and the trail that `verify` accepts; else the
/// refusal or denial of the text with its status, as `serve`; 7 out of memory, 8 a writer that failed. It is the best plan by the
/// statistics of the rows that the role sees, in the columns that its conditions name. Nothing is written before the text is whole,
/// and the writer is not flushed.
pub fn explain<A: Heap, W: Out>(
    alloc: A,
    store: &Store<A>,
    role: &str,
    text: &str,
    out: &mut W,
) -> u8
    // The whole text of the plan, of the refusal or of the denial, and its status; or memory ran out, or the writer failed.
    ensures sent { let due = explained store.now.catalog (rows_of store.now) role.now text.now in
        IsSent (W.taken out.old) (W.taken out.new) (W.failures out.old) (W.failures out.new) result (explained_status due) (explained_text due) (reply_text no_memory) }
    // Rows that the role does not see, and columns that the text does not name, make no difference.
    ensures hidden { (other : Rows) → SeesSame store.now.catalog role.now text.now (rows_of store.now) other → result ≢ 7 → result ≢ 8 →
        IsExplained (W.taken out.old) (W.taken out.new) result (explained store.now.catalog other role.now text.now) }
    // Columns on which the role has no SELECT make no difference.
    ensures ungranted { (other : Rows) → ReadsSame store.now.catalog role.now (rows_of store.now) other → result ≢ 7 → result ≢ 8 →
        IsExplained (W.taken out.old) (W.taken out.new) result (explained store.now.catalog other role.now text.now) }
{
    law_nothing_known();
    let mut seen = Seen::new(alloc);
    explain_with(alloc, store, role, text, &mut seen, out)
}

/// The same for one text after another: what is not known yet of the rows that the role sees is found out, and kept.
pub fn explain_with<A: Heap, W: Out>(
    alloc: A,
    store: &Store<A>,
    role: &str,
    text: &str,
    seen: &mut Seen<A>,
    out: &mut W,
) -> u8
    requires seen { AreSeenIn store.now seen.old }
    ensures sent { let due = explained store.now.catalog (rows_of store.now) role.now text.now in
        IsSent (W.taken out.old) (W.taken out.new) (W.failures out.old) (W.failures out.new) result (explained_status due) (explained_text due) (reply_text no_memory) }
    ensures hidden { (other : Rows) → SeesSame store.now.catalog role.now text.now (rows_of store.now) other → result ≢ 7 → result ≢ 8 →
        IsExplained (W.taken out.old) (W.taken out.new) result (explained store.now.catalog other role.now text.now) }
    ensures ungranted { (other : Rows) → ReadsSame store.now.catalog role.now (rows_of store.now) other → result ≢ 7 → result ≢ 8 →
        IsExplained (W.taken out.old) (W.taken out.new) result (explained store.now.catalog other role.now text.now) }
    ensures seen { AreSeenIn store.now seen.new }
{
    match explained(alloc, store, role, text, seen) {
        Ok((bytes, status)) => send(out, &bytes, status),
        Err(_) => send(out, b"refused 53200\n".as_slice(), 7),
    }
}

/// What explains a text depends on its own rows of the role alone: two contents of which the rows that the role sees of each entry,
/// restricted to the columns that the text names, are the same bag give the same plan, and so equal bytes and statuses.
#[tactic(auto, using(crate::proofs::ExplainedTexts::same_explained))]
pub fn law_seen_rows()
    ensures { (cat : Catalog) (role : Name) (text : List ℕ) (one other : Rows) → SeesSame cat role text one other → explained cat one role text ≡ explained cat other role text }
{}
