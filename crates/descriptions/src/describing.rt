//! Descriptions of queries.

ghost use Rattle.std.specs.Prelude.{◌≡◌, ◌++◌, ◌∷◌, [], IfOk, IsOk, OnOk, Ok, map, true};
ghost use Rattle.value.specs.Datum.{null_or};
ghost use Rattle.row_ast.specs.View.{query_of};
ghost use Rattle.expr.specs.View.{bound_item_of, bound_items_of};
ghost use Rattle.scope.specs.View.{entries_of};
ghost use Rattle.answer_rows.specs.Growing.{only};
ghost use Rattle.resolve.specs.View.{bound_of};
ghost use Rattle.replies.specs.View.{reply_of};
ghost use Rattle.analysis.specs.Analysis.{admitted_query, is_refused_at_once};
ghost use Rattle.descriptions.specs.Descriptions as spec;

use crate::types::{TypeOf, bound_type};
use analysis::{admit, read_query};
use answer_rows::AnswerRows;
use catalog::Catalog;
use expr::BoundItem;
use memory::{Heap, Items, Text};
use replies::Reply;
use resolve::Bound;
use row_ast::Query;
use scope::Entry;
use std::alloc::AllocError;
use value::{ColType, Lent, Val};

// The word of a type, or null for that of NULL.
fn type_value(of: TypeOf) -> Option<Lent<'static>>
    ensures { null_or result ≡ spec.type_value of }
{
    match of {
        None => None,
        Some(ColType::Bigint) => Some(Lent::Text("bigint")),
        Some(ColType::Text) => Some(Lent::Text("text")),
        Some(ColType::Boolean) => Some(Lent::Text("boolean")),
    }
}

// Adds the name and the type of an item.
fn push_item<A: Heap>(
    rows: &mut AnswerRows<A>,
    entries: &[Entry<'_, A>],
    item: &BoundItem<A>,
) -> Result<(), AllocError>
    requires { rows.old.unfinished ≡ [] }
    ensures { OnOk result (rows.new ≡ only (rows.old.rows ++ spec.description_row (entries_of entries.now) (bound_item_of item.now) ∷ [])) }
{
    rows.push(&Val::of(Some(Lent::Text(item.heading.as_str()))))?;
    rows.push(&Val::of(type_value(bound_type(entries, &item.value))))?;
    rows.finish_row()
}

// The name and the type of each item.
fn description_rows<A: Heap>(
    alloc: A,
    entries: &[Entry<'_, A>],
    items: &[BoundItem<A>],
) -> Result<AnswerRows<A>, AllocError>
    ensures { IfOk result (λ rows. rows ≡ only (map (spec.description_row (entries_of entries.now)) (bound_items_of items.now))) }
{
    let mut rows = AnswerRows::new(alloc);
    for item in items {
        push_item(&mut rows, entries, item)?;
    }
    Ok(rows)
}

fn description_headings<A: Heap>(alloc: A) -> Result<Items<Text<A>, A>, AllocError>
    ensures { IfOk result (λ headings. headings ≡ spec.description_headings) }
{
    let mut headings = Items::new(alloc);
    headings.push(Text::new(alloc, "column")?)?;
    headings.push(Text::new(alloc, "type")?)?;
    Ok(headings)
}

// The description of a bound query.
fn describe_bound<A: Heap>(alloc: A, bound: &Bound<'_, A>) -> Result<Reply<A>, AllocError>
    ensures { IfOk result (λ reply. reply_of reply ≡ spec.described_query (Ok (bound_of bound.now))) }
{
    let headings = description_headings(alloc)?;
    let items = bound.query.items.as_slice();
    let rows = description_rows(alloc, bound.entries.as_slice(), items)?;
    Ok(Reply::Rows { headings, rows })
}

fn describe_query<A: Heap>(
    alloc: A,
    catalog: &Catalog<A>,
    role: &str,
    query: &Query<A>,
) -> Result<Reply<A>, AllocError>
    ensures { IfOk result (λ reply. reply_of reply ≡ spec.described_query (admitted_query catalog.now role.now (query_of query.now))) }
{
    match admit(alloc, catalog, role, query) {
        Ok(Ok(bound)) => describe_bound(alloc, &bound),
        Ok(Err(reply)) => Ok(reply),
        Err(error) => Err(error),
    }
}

/// The name and the type of each output column of a role's text, as rows `column,type`, or its refusal or denial. No row is read.
/// The type of a column that can only be NULL is null. It fails where memory runs out.
///
/// ```text
/// let reply = describe(alloc, store.catalog(), "alice", "SELECT id, owner FROM t")?;
/// // column,type: id,bigint and owner,text
/// ```
pub fn describe<A: Heap>(
    alloc: A,
    catalog: &Catalog<A>,
    role: &str,
    text: &str,
) -> Result<Reply<A>, AllocError>
    ensures reply { IfOk result (λ reply. reply_of reply ≡ spec.described catalog.now role.now text.now) }
    ensures at_once { is_refused_at_once catalog.now role.now text.now ≡ true → IsOk result }
{
    match read_query(alloc, catalog, role, text) {
        Ok(Ok(query)) => {
            let reply = describe_query(alloc, catalog, role, &query);
            drop(query);
            reply
        }
        Ok(Err(reply)) => Ok(reply),
        Err(error) => Err(error),
    }
}
