//! The access matrix.

ghost use Rattle.std.specs.Prelude.{◌≡◌, ◌++◌, [], ◌∷◌, IfOk, OnOk, map, true, string_bytes};
ghost use Rattle.std.specs.List.{flat_map, list_all};
ghost use Rattle.answer_rows.specs.Growing.{only};
ghost use Rattle.row_objects.specs.View.{table_of};
ghost use Rattle.catalog.specs.Catalog.{is_role, is_table};
ghost use Rattle.catalog.specs.Reached.{AreMarksOf};
ghost use Rattle.replies.specs.View.{reply_of};
ghost use Rattle.access_matrix.specs.Matrix as spec;

use crate::counting::count;
use crate::names::role_names;
use crate::reading::{read_columns, rows_read};
use crate::reasons::reason_words;
use crate::values::{headings, push_count, push_text};
use crate::words::joined;
use answer_rows::AnswerRows;
use catalog::{Catalog, RoleMarks};
use memory::Heap;
use replies::Reply;
use row_objects::Table;
use std::alloc::AllocError;
use store::Store;
use value::Refusal;

// All columns, none, or their names.
fn columns_words<A: Heap>(
    alloc: A,
    table: Table<'_, A>,
    names: &[&str],
) -> Result<String<A>, AllocError>
    ensures { IfOk result (λ s. string_bytes s ≡ spec.columns_words (table_of table.entry) (map (λ n. n.now) names.now)) }
{
    if names.is_empty() {
        String::from_str(alloc, "none")
    } else if names.len() == table.columns().len() {
        String::from_str(alloc, "all")
    } else {
        joined(alloc, names)
    }
}

// Adds the row of a role and a table of the store.
fn push_row<A: Heap>(
    alloc: A,
    rows: &mut AnswerRows<A>,
    store: &Store<A>,
    marks: &RoleMarks,
    role: &str,
    table: Table<'_, A>,
) -> Result<(), AllocError>
    requires unfinished { rows.old.unfinished ≡ [] }
    requires marks { AreMarksOf store.now.catalog role.now marks.now }
    requires there { is_table store.now.catalog (table_of table).name ≡ true }
    ensures { OnOk result (rows.new ≡ only (rows.old.rows ++ spec.matrix_row store.now role.now (table_of table.entry) ∷ [])) }
{
    let catalog = store.catalog();
    let names = read_columns(alloc, catalog, marks, role, table)?;
    let columns = columns_words(alloc, table, names.as_slice())?;
    let read = rows_read(alloc, store, marks, role, table)?;
    let why = reason_words(alloc, catalog, marks, role, table)?;
    push_text(rows, role)?;
    push_text(rows, table.name())?;
    push_text(rows, columns.as_str())?;
    push_count(rows, count(&read) as u64)?;
    push_count(rows, store.contents_of(table.name()).rows())?;
    push_text(rows, why.as_str())?;
    rows.finish_row()
}

// Adds the rows of a role: one for each table.
fn push_role<A: Heap>(
    alloc: A,
    rows: &mut AnswerRows<A>,
    store: &Store<A>,
    role: &str,
) -> Result<(), AllocError>
    requires unfinished { rows.old.unfinished ≡ [] }
    ensures { OnOk result (rows.new ≡ only (rows.old.rows ++ map (λ t. spec.matrix_row store.now role.now t) store.now.catalog.tables)) }
{
    let catalog = store.catalog();
    let marks = catalog.reached(role);
    for index in 0..catalog.tables() {
        let table = catalog.table_at(index).unwrap();
        push_row(alloc, rows, store, &marks, role, table)?;
    }
    Ok(())
}

// The rows of roles.
fn matrix_rows<A: Heap>(
    alloc: A,
    store: &Store<A>,
    roles: &[&str],
) -> Result<AnswerRows<A>, AllocError>
    ensures { IfOk result (λ rows. rows ≡ only (spec.matrix_rows store.now (map (λ r. r.now) roles.now))) }
{
    let mut rows = AnswerRows::new(alloc);
    for role in roles {
        push_role(alloc, &mut rows, store, role)?;
    }
    Ok(rows)
}

// The rows of the roles that are asked for, or of all where none is.
fn asked_rows<A: Heap>(
    alloc: A,
    store: &Store<A>,
    roles: &[&str],
) -> Result<AnswerRows<A>, AllocError>
    ensures { IfOk result (λ rows. rows ≡ only (spec.matrix_rows store.now (spec.asked_roles store.now.catalog (map (λ r. r.now) roles.now)))) }
{
    if roles.is_empty() {
        let all = role_names(alloc, store.catalog())?;
        matrix_rows(alloc, store, all.as_slice())
    } else {
        matrix_rows(alloc, store, roles)
    }
}

// True where each of the roles is there.
fn are_roles<A: Heap>(catalog: &Catalog<A>, roles: &[&str]) -> bool
    ensures { result ≡ list_all (is_role catalog.now) (map (λ r. r.now) roles.now) }
{
    for role in roles {
        if !catalog.is_role(role) {
            return false;
        }
    }
    true
}

/// Which rows and columns of each table some roles read, or all of them where none is named, and why: a row for each role and each
/// table in order of creation. It is refused where one of the roles is not there (42704), and fails where memory runs out. Its
/// numbers are those of the rows that roles see, so it is for who may see all.
pub fn matrix<A: Heap>(alloc: A, store: &Store<A>, roles: &[&str]) -> Result<Reply<A>, AllocError>
    ensures { IfOk result (λ reply. reply_of reply ≡ spec.matrix store.now (map (λ r. r.now) roles.now)) }
{
    if !are_roles(store.catalog(), roles) {
        return Ok(Reply::Refused {
            code: Refusal::UndefinedObject,
            offset: None,
        });
    }
    let headings = headings(alloc, &["role", "table", "columns", "rows", "of", "why"])?;
    let rows = asked_rows(alloc, store, roles)?;
    Ok(Reply::Rows { headings, rows })
}
