//! Loads.

ghost use Rattle.std.specs.Prelude.{◌≡◌, IfOk, OnErr, true};
ghost use Rattle.catalog.specs.Catalog.{is_table};
ghost use Rattle.tables.specs.LoadErrors.{column_name};
ghost use Rattle.csv_records.specs.Left.{records_of};
ghost use Rattle.store.specs.Database.{columns_in};
ghost use Rattle.store.specs.Loads.{IsLoad};
ghost use Rattle.sessions.specs.Reply.{Data as data_reply};
ghost use Rattle.sessions.specs.View.{reply_of};

use crate::reply::Reply;
use csv_records::Records;
use memory::{Failure, Heap, Text};
use std::alloc::AllocError;
use store::{Store, StoreError};
use tables::{LoadError, column_name};

// Adds the rows of bytes to a table. A slice can always be read; where csv says that it was not, memory ran out.
pub(crate) fn load_bytes<A: Heap>(
    alloc: A,
    store: &mut Store<A>,
    table: &str,
    bytes: &[u8],
) -> Result<(), Failure<StoreError>>
    ensures catalog { store.new.catalog ≡ store.old.catalog }
    ensures unchanged { OnErr result (store.new ≡ store.old) }
    ensures loaded { IsLoad store.old.tables store.new.tables table.now (records_of bytes.now) result }
{
    let mut records = Records::new(alloc.global(), bytes);
    let loaded = store.load_records(table, &mut records);
    if records.has_failed() {
        return Err(Failure::OutOfMemory);
    }
    loaded
}

// An error of the rows of a table that is there, with the names of the table and the column.
pub(crate) fn data_refusal<A: Heap>(
    alloc: A,
    store: &Store<A>,
    table: &str,
    error: LoadError,
) -> Result<Reply<A>, AllocError>
    requires { is_table store.now.catalog table.now ≡ true }
    ensures { IfOk result (λ reply. reply_of reply ≡ data_reply table.now (column_name (columns_in store.now.tables table.now) error) error) }
{
    let column = column_name(store.contents_of(table).columns(), error);
    Ok(Reply::Data {
        table: Text::new(alloc, table)?,
        column: Text::new(alloc, column)?,
        error,
    })
}
