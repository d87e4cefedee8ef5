//! The rows of tables, from the files of a folder.

ghost use Rattle.std.specs.Prelude.{◌≡◌, ◌<◌, ℕ, List, length, None, Option, Ok, IfErr, IfOk, OnErr, OnOk, true};
ghost use Rattle.engine.specs.Catalog.{is_table};
ghost use Rattle.tables.specs.LoadErrors.{column_name};
ghost use Rattle.engine.specs.Database.{columns_in};
ghost use Rattle.engine.specs.Loads.{IsLoadFrom};
ghost use Rattle.setup.specs.Loads.{AreLoaded, IsErrorAt, IsErrorOf, IsLoadedAt, IsOfFile, IsRowFault, Knows, StopsAtTable, names_of};

use crate::error::SetupError;
use engine::Store;
use memory::{Failure, Heap, Text};
use std::alloc::AllocError;
use std::io::Read;
use tables::{LoadError, column_name};

/// The files of tables.
pub trait Folder<A: Heap> {
    // The reader of a file.
    type File: Read + Drop;

    // The path of a table's file.
    ghost path: { Self → List ℕ → List ℕ };

    // The bytes of a table's file, where they are known.
    ghost bytes: { Self → List ℕ → Option (List ℕ) } = { λ _ _. None };

    /// Opens the file of a table. The error is `Input`, with its path.
    fn open(&self, alloc: A, table: &str) -> Result<Self::File, Failure<SetupError<A>>>
        ensures bytes { IfOk result (λ file. Knows (bytes self.now table.now) (Self.File.remaining file)) }
        ensures fault { IfErr result (λ f. IsOfFile (path self.now table.now) f) };
}

fn data_fault<A: Heap>(
    alloc: A,
    store: &Store<A>,
    table: &str,
    error: LoadError,
) -> Result<SetupError<A>, AllocError>
    requires { is_table store.now.catalog table.now ≡ true }
    ensures { IfOk result (λ f. f ≡ SetupError.Data table.now (column_name (columns_in store.now.tables table.now) error) error) }
{
    let column = column_name(store.contents_of(table).columns(), error);
    Ok(SetupError::Data {
        table: Text::new(alloc, table)?,
        column: Text::new(alloc, column)?,
        error,
    })
}

/// Adds the rows of a file to a table that is there. The error is `Data`, with the first load error of the rows; it
/// changes nothing.
pub fn load_table<A: Heap, R: Read + Drop>(
    alloc: A,
    store: &mut Store<A>,
    table: &str,
    file: R,
) -> Result<(), Failure<SetupError<A>>>
    requires { is_table store.old.catalog table.now ≡ true }
    ensures catalog { store.new.catalog ≡ store.old.catalog }
    ensures loaded { OnOk result (IsLoadFrom (R.remaining file) store.old.tables store.new.tables table.now (Ok tt)) }
    ensures unchanged { OnErr result (store.new ≡ store.old) }
    ensures fault { IfErr result (λ f. IsRowFault (R.remaining file) store.old.tables table.now f) }
{
    match store.append(table, file) {
        Ok(()) => Ok(()),
        Err(Failure::Error(error)) => Err(Failure::Error(data_fault(alloc, store, table, error)?)),
        Err(Failure::OutOfMemory) => Err(Failure::OutOfMemory),
    }
}

// Loads a table that is there from its file.
fn load_named<A: Heap, F: Folder<A>>(
    alloc: A,
    store: &mut Store<A>,
    folder: &F,
    table: &str,
) -> Result<(), Failure<SetupError<A>>>
    requires { is_table store.old.catalog table.now ≡ true }
    ensures catalog { store.new.catalog ≡ store.old.catalog }
    ensures loaded { OnOk result (IsLoadFrom (F.bytes folder.now table.now) store.old.tables store.new.tables table.now (Ok tt)) }
    ensures unchanged { OnErr result (store.new ≡ store.old) }
    ensures fault { IfErr result (λ f. IsErrorOf (F.path folder.now table.now) (F.bytes folder.now table.now) store.old.tables table.now f) }
{
    match folder.open(alloc, table) {
        Ok(file) => load_table(alloc, store, table, file),
        Err(fault) => Err(fault),
    }
}

// Loads the table at an index, in order of creation, from its file.
fn load_at<A: Heap, F: Folder<A>>(
    alloc: A,
    store: &mut Store<A>,
    folder: &F,
    index: usize,
) -> Result<(), Failure<SetupError<A>>>
    requires { index < length store.old.tables }
    ensures catalog { store.new.catalog ≡ store.old.catalog }
    ensures loaded { OnOk result (IsLoadedAt (F.bytes folder.now) store.old.tables store.new.tables index) }
    ensures unchanged { OnErr result (store.new ≡ store.old) }
    ensures fault { IfErr result (λ f. IsErrorAt (F.path folder.now) (F.bytes folder.now) store.old.tables index f) }
{
    let Ok(name) = Text::new(alloc, store.table_name(index)) else {
        return Err(Failure::OutOfMemory);
    };
    let loaded = load_named(alloc, store, folder, name.as_str());
    drop(name);
    loaded
}

/// Loads each table, in order of creation, from its file in a folder. The first error ends it; the tables before it
/// keep their rows.
pub fn load_tables<A: Heap, F: Folder<A>>(
    alloc: A,
    store: &mut Store<A>,
    folder: &F,
) -> Result<(), Failure<SetupError<A>>>
    ensures catalog { store.new.catalog ≡ store.old.catalog }
    ensures loaded { OnOk result (AreLoaded (F.bytes folder.now) (names_of store.old.tables) store.old.tables store.new.tables) }
    ensures stops { IfErr result (λ f. StopsAtTable (F.path folder.now) (F.bytes folder.now) store.old.tables store.new.tables f) }
{
    for i in 0..store.table_count() {
        match load_at(alloc, store, folder, i) {
            Ok(()) => {}
            Err(fault) => return Err(fault),
        }
    }
    Ok(())
}
