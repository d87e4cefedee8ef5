//! The plan by which a query is answered, as a tree.

ghost use Rattle.std.specs.Prelude.{◌≡◌, ◌≢◌, IfOk, map};
ghost use Rattle.row_ast.specs.View.{query_of};
ghost use Rattle.scope.specs.View.{entries_of};
ghost use Rattle.output.specs.Sent.{IsSent};
ghost use Rattle.replies.specs.Reply.{no_memory};
ghost use Rattle.replies.specs.ReplyText.{reply_text};
ghost use Rattle.engine.specs.Analysis.{admitted, admitted_query};
ghost use Rattle.engine.specs.Database.{Rows, rows_of};
ghost use Rattle.engine.specs.Explained.{IsExplanation, explained_status, explained_text};
ghost use Rattle.engine.specs.Hidden.{SeesSame};
ghost use Rattle.engine.specs.Readable.{ReadsSame};
ghost use Rattle.engine.specs.Serving.{IsExplained};
ghost use Rattle.setup.specs.PlanTree as spec;
ghost use Rattle.setup.specs.PlanTree.{explained_tree};

use bound_plans::plan_entries;
use engine::{Query, Store, admit, explain, read_query};
use memory::{Failure, Heap};
use output::{Out, Output, send};
use plan_texts::read_plan;
use plan_trees::write_tree;
use scope::Entry;
use std::alloc::AllocError;

// The names of the tables of entries.
fn table_names<'s, A: Heap>(
    alloc: A,
    entries: &[Entry<'s, A>],
) -> Result<Vec<&'s str, A>, AllocError>
    ensures { IfOk result (λ names. map (λ t. t.now) names.items ≡ spec.table_names (entries_of entries.now)) }
{
    let mut names = Vec::new(alloc);
    for entry in entries {
        names.push(entry.table.name())?;
    }
    Ok(names)
}

// The tree of the plan of a text, for a query over the entries.
fn tree_of<A: Heap>(
    alloc: A,
    entries: &[Entry<'_, A>],
    text: &[u8],
) -> Result<Vec<u8, A>, AllocError>
    ensures { IfOk result (λ tree. tree.items ≡ spec.tree_of (entries_of entries.now) text.now) }
{
    let named = plan_entries(alloc, entries)?;
    let tables = table_names(alloc, entries)?;
    match read_plan(alloc, named.as_slice(), text) {
        Ok(plan) => write_tree(alloc, named.as_slice(), tables.as_slice(), &plan),
        Err(Failure::Error(_)) => Ok(Vec::new(alloc)),
        Err(Failure::OutOfMemory) => Err(AllocError),
    }
}

// The tree in place of the text of a query's plan; the bytes as they are where the query is refused.
fn tree_of_query<A: Heap>(
    alloc: A,
    store: &Store<A>,
    role: &str,
    query: &Query<A>,
    explained: Vec<u8, A>,
) -> Result<Vec<u8, A>, AllocError>
    ensures { IfOk result (λ bytes. bytes.items ≡ spec.tree_or_same (admitted_query store.now.catalog role.now (query_of query.now)) explained.items) }
{
    match admit(alloc, store.catalog(), role, query)? {
        Ok(bound) => tree_of(alloc, bound.entries.as_slice(), &explained),
        Err(_) => Ok(explained),
    }
}

// The same of a text.
fn tree_of_text<A: Heap>(
    alloc: A,
    store: &Store<A>,
    role: &str,
    text: &str,
    explained: Vec<u8, A>,
) -> Result<Vec<u8, A>, AllocError>
    ensures { IfOk result (λ bytes. bytes.items ≡ spec.tree_or_same (admitted store.now.catalog role.now text.now) explained.items) }
{
    match read_query(alloc, store.catalog(), role, text)? {
        Ok(query) => {
            let tree = tree_of_query(alloc, store, role, &query, explained);
            drop(query);
            tree
        }
        Err(_) => Ok(explained),
    }
}

// The tree of the plan of a role's text and status 0; or the text of its refusal or denial, and the status of that.
fn explained_tree<A: Heap>(
    alloc: A,
    store: &Store<A>,
    role: &str,
    text: &str,
) -> Result<(Vec<u8, A>, u8), AllocError>
    ensures { IfOk result (λ r. IsExplanation r.0.items r.1 (explained_tree store.now.catalog (rows_of store.now) role.now text.now)) }
{
    let mut explained = Output {
        inner: Vec::new(alloc),
        failed: 0,
    };
    let status = explain(alloc, store, role, text, &mut explained);
    if status >= 7 {
        return Err(AllocError);
    }
    let tree = tree_of_text(alloc, store, role, text, explained.inner)?;
    Ok((tree, status))
}

/// Writes the plan by which a role's query is answered as a tree (PostgreSQL: EXPLAIN), and gives its status: 0 a tree; else the
/// refusal or denial of the text with its status; 7 out of memory, 8 a writer that failed. The tree is a function of the plan's text
/// that `explain` writes, of the columns of the tables of FROM and of their names.
pub fn explain_tree<A: Heap, W: Out>(
    alloc: A,
    store: &Store<A>,
    role: &str,
    text: &str,
    out: &mut W,
) -> u8
    // The whole tree of the plan, or the text of the refusal or of the denial, and its status; or memory ran out, or the writer failed.
    ensures sent { let due = explained_tree store.now.catalog (rows_of store.now) role.now text.now in
        IsSent (W.taken out.old) (W.taken out.new) (W.failures out.old) (W.failures out.new) result (explained_status due) (explained_text due) (reply_text no_memory) }
    // Rows that the role does not see, and columns that the text does not name, make no difference.
    ensures hidden { (other : Rows) → SeesSame store.now.catalog role.now text.now (rows_of store.now) other → result ≢ 7 → result ≢ 8 →
        IsExplained (W.taken out.old) (W.taken out.new) result (explained_tree store.now.catalog other role.now text.now) }
    // Columns on which the role has no SELECT make no difference.
    ensures ungranted { (other : Rows) → ReadsSame store.now.catalog role.now (rows_of store.now) other → result ≢ 7 → result ≢ 8 →
        IsExplained (W.taken out.old) (W.taken out.new) result (explained_tree store.now.catalog other role.now text.now) }
{
    match explained_tree(alloc, store, role, text) {
        Ok((bytes, status)) => send(out, &bytes, status),
        Err(_) => send(out, b"refused 53200\n".as_slice(), 7),
    }
}
