//! A catalogue with its tables.

ghost use Rattle.std.specs.Prelude.{◌≡◌, List, IfOk, IfSome, IsErrOf, OnErr, OnOk, Some, ◌<◌, ◌-◌, None, is_some, length, option_map, slice_get, true};
ghost use Rattle.std.specs.List.{position_from};
ghost use Rattle.csv_records.specs.Left.{records_of};
ghost use Rattle.tables.specs.Loading.{Fields, reported};
ghost use Rattle.tables.specs.declared.TheConstants.{MAX_ROWS};
ghost use Rattle.value.specs.Columns.{columns_of};
ghost use Rattle.value.specs.Names.{Name};
ghost use Rattle.row_ast.specs.Statements.{CreateTable};
ghost use Rattle.row_ast.specs.View.{statement_of};
ghost use Rattle.catalog.specs.Catalog.{is_table};
ghost use Rattle.catalog.specs.Changes.{takes_no_memory, IsChange, IsExactChange};
ghost use Rattle.store.specs.Agreement.{Agrees};
ghost use Rattle.store.specs.Derived.{HasIndexes};
ghost use Rattle.store.specs.Database.{at_start, changed_database, contents_named, is_named};
ghost use Rattle.store.specs.Statements.{new_index_of};
ghost use Rattle.store.specs.Loads.{IsLoad, IsLoadFrom, LoadStops, store_failure, store_result};

use crate::stored::{Stored, new_table};
use catalog::Catalog;
use csv_records::Records;
use indexes::IndexRows;
use memory::{Failure, Heap};
use row_ast::Statement;
use std::alloc::AllocError;
use std::io::Read;
use std::marker::Model;
use tables::{LoadError, Table};
use thiserror::Error;
use value::{Column, Refusal};

/// A catalogue with the contents of its tables: those at each index have the name and the columns of the table at that
/// index of the catalogue. Beside the contents of each table stand its indexes, one for each of the catalogue, which a load
/// derives anew.
#[derive(Drop)]
pub struct Store<A: Heap> {
    alloc: A,
    catalog: Catalog<A>,
    tables: Vec<Stored<A>, A>,
}

impl<A: Heap> Model for Store<A> {
    ghost use Rattle.store.specs.Database.{Database};

    ghost Value = { Database };

    ghost use Rattle.std.specs.Prelude.{ℕ};
    ghost use Rattle.std.specs.Coded.{codes, coded_ℕ};
    ghost use Rattle.expr.specs.declared.movable_expr.MovableExpr as movable_expr;

    ghost coded = { Prim.hlevel (codes, movable_expr.the_code ℕ coded_ℕ) };

    ghost use Rattle.store.specs.View.{database_of};

    ghost view = { database_of };

    ghost use Rattle.store.specs.Derived.{IsHeld};

    ghost invariant = { IsHeld };
}

/// An error of rows that are not added.
#[derive(Clone, Copy, Debug, Error, PartialEq, Eq)]
pub enum StoreError {
    /// There is no table of that name (42P01).
    #[error("there is no table of that name")]
    UndefinedTable,
    /// The first load error of the rows.
    #[error("{0}")]
    Data(LoadError),
}

// The failure of a load into the store, of that of the load into its table.
fn store_failure(failure: Failure<LoadError>) -> Failure<StoreError>
    ensures { result ≡ store_failure failure }
{
    match failure {
        Failure::Error(error) => Failure::Error(StoreError::Data(error)),
        Failure::OutOfMemory => Failure::OutOfMemory,
    }
}

impl<A: Heap> Store<A> {
    /// A store with the superuser `root` and no table. It fails where memory runs out.
    pub fn new(alloc: A) -> Result<Store<A>, AllocError>
        ensures { IfOk result (λ store. store ≡ at_start) }
    {
        Ok(Store {
            alloc,
            catalog: Catalog::new(alloc)?,
            tables: Vec::new(alloc),
        })
    }

    /// The catalogue. The contents of the store are those of its tables.
    pub fn catalog(&self) -> &Catalog<A>
        ensures catalog { result.now ≡ self.now.catalog }
        ensures agree { Agrees self.now }
    {
        &self.catalog
    }

    // The index of the table of that name, which is that of its contents.
    fn table_index(&self, name: &str) -> Option<usize>
        ensures index { result ≡ position_from (is_named name.now) 0 self.now.tables }
        ensures within { IfSome result (λ i. i < length self.now.tables) }
        ensures there { is_some result ≡ is_table self.now.catalog name.now }
    {
        match self.catalog.find_table(name) {
            Some((index, _)) => Some(index),
            None => None,
        }
    }

    // A new table, with no rows; a refused one adds nothing.
    fn add_table(
        &mut self,
        actor: &str,
        statement: &Statement<A>,
        name: &str,
        columns: &[Column<A>],
    ) -> Result<(), Refusal>
        requires { statement_of statement.now ≡ CreateTable name.now (columns_of columns.now) }
        ensures { IsChange self.old self.new (changed_database self.old actor.now (statement_of statement.now)) result }
    {
        let Ok(table) = new_table(self.alloc, name, columns) else {
            return Err(Refusal::OutOfMemory);
        };
        let before = self.tables.len();
        if self.tables.push(table).is_err() {
            return Err(Refusal::OutOfMemory);
        }
        match self.catalog.apply(actor, statement) {
            Ok(()) => Ok(()),
            Err(code) => {
                self.tables.truncate(before);
                Err(code)
            }
        }
    }

    // The index of a CREATE INDEX, of the rows of its table; a refused one makes none.
    fn add_index(
        &mut self,
        actor: &str,
        statement: &Statement<A>,
        table: &str,
        column: &str,
    ) -> Result<(), Refusal>
        requires { new_index_of (statement_of statement.now) ≡ Some (table.now, column.now) }
        ensures { IsChange self.old self.new (changed_database self.old actor.now (statement_of statement.now)) result }
    {
        let Some(index) = self.table_index(table) else {
            return self.catalog.apply(actor, statement);
        };
        let before = self.tables[index].indexes.len();
        match self.tables[index].add_index(self.alloc, column) {
            Err(_) => Err(Refusal::OutOfMemory),
            Ok(()) => match self.catalog.apply(actor, statement) {
                Ok(()) => Ok(()),
                Err(code) => {
                    self.tables[index].truncate_indexes(before);
                    Err(code)
                }
            },
        }
    }

    /// Applies a schema statement of an actor; a new table has no rows. It is refused by the first of its checks that
    /// fails, as `Refusal::DuplicateTable` (42P07) where a table of that name is there, or where memory runs out
    /// (53200), and a refused statement changes nothing. A schema text is applied by `store.change("root",
    /// &statement)`. REVOKE, the settings of row security and DROP POLICY take no memory.
    pub fn change(&mut self, actor: &str, statement: &Statement<A>) -> Result<(), Refusal>
        ensures change { IsChange self.old self.new (changed_database self.old actor.now (statement_of statement.now)) result }
        ensures exact { takes_no_memory (statement_of statement.now) ≡ true → IsExactChange self.old self.new (changed_database self.old actor.now (statement_of statement.now)) result }
    {
        match statement {
            Statement::CreateTable { name, columns } => {
                self.add_table(actor, statement, name.as_str(), columns.as_slice())
            }
            Statement::CreateIndex { table, column, .. } => {
                self.add_index(actor, statement, table.as_str(), column.as_str())
            }
            _ => self.catalog.apply(actor, statement),
        }
    }

    /// The contents of the table of that name; none exactly where the catalogue has no such table.
    pub fn contents(&self, name: &str) -> Option<&Table<A>>
        ensures contents { option_map (λ t. t.now) result ≡ contents_named self.now.tables name.now }
        ensures there { is_some result ≡ is_table self.now.catalog name.now }
    {
        match self.table_index(name) {
            Some(index) => Some(&self.tables[index].contents),
            None => None,
        }
    }

    /// The contents of a table of the catalogue.
    pub fn contents_of(&self, table: &str) -> &Table<A>
        requires { is_table self.now.catalog table.now ≡ true }
        ensures { contents_named self.now.tables table.now ≡ Some result.now }
    {
        self.contents(table).unwrap()
    }

    /// The indexes of a table of the catalogue: the numbers of its rows in the order of each column that has an index.
    pub fn indexes(&self, name: &str) -> &[IndexRows<A>]
        requires { is_table self.now.catalog name.now ≡ true }
        ensures { HasIndexes self.now name.now result.now }
    {
        let index = self.table_index(name).unwrap();
        &self.tables[index].indexes
    }

    /// The name of the table at an index, in order of creation.
    pub fn table_name(&self, index: usize) -> &str
        requires { index < length self.now.tables }
        ensures name { option_map (λ t. t.0) (slice_get self.now.tables index) ≡ Some result.now }
        ensures there { is_table self.now.catalog result.now ≡ true }
    {
        self.tables[index].name.as_str()
    }

    /// The number of tables.
    pub fn table_count(&self) -> usize
        ensures { result ≡ length self.now.tables }
    {
        self.tables.len()
    }

    /// Adds the rows of the records that a reader gives, of which the first is the names of the columns, to the table
    /// of that name; `UndefinedTable` where there is none, else `Data` with the first load error. A refusal changes
    /// nothing. A read may fail, which is reported at the row that was not read; another error is the first one of the
    /// records. `store.load("t", "id\n1\n".as_bytes())` adds one row to a table of one column `id`.
    pub fn load<R: Read + Drop>(
        &mut self,
        table: &str,
        reader: R,
    ) -> Result<(), Failure<StoreError>>
        ensures catalog { self.new.catalog ≡ self.old.catalog }
        ensures unchanged { OnErr result (self.new ≡ self.old) }
        ensures loaded { IsLoadFrom (R.remaining reader) self.old.tables self.new.tables table.now result }
    {
        let Some(index) = self.table_index(table) else {
            return Err(Failure::Error(StoreError::UndefinedTable));
        };
        match self.append_at(index, reader) {
            Ok(()) => Ok(()),
            Err(failure) => Err(store_failure(failure)),
        }
    }

    /// Adds the rows that a reader gives to a table of the catalogue, as `load` does.
    pub fn append<R: Read + Drop>(
        &mut self,
        table: &str,
        reader: R,
    ) -> Result<(), Failure<LoadError>>
        requires { is_table self.old.catalog table.now ≡ true }
        ensures catalog { self.new.catalog ≡ self.old.catalog }
        ensures unchanged { OnErr result (self.new ≡ self.old) }
        ensures loaded { IsLoadFrom (R.remaining reader) self.old.tables self.new.tables table.now (store_result result) }
    {
        let index = self.table_index(table).unwrap();
        self.append_at(index, reader)
    }

    // Adds the rows that a reader gives to the table at an index.
    fn append_at<R: Read + Drop>(
        &mut self,
        index: usize,
        reader: R,
    ) -> Result<(), Failure<LoadError>>
        requires { index < length self.old.tables }
        ensures catalog { self.new.catalog ≡ self.old.catalog }
        ensures unchanged { OnErr result (self.new ≡ self.old) }
        ensures loaded { (name : Name) → position_from (is_named name) 0 self.old.tables ≡ Some index → IsLoadFrom (R.remaining reader) self.old.tables self.new.tables name (store_result result) }
    {
        self.tables[index].append(self.alloc, reader)
    }

    /// Adds the rows of records, of which none was read before, as `load` does. A contract sees of the records why a read
    /// failed, if one did. Where none did, an error is the first one of the records; where one did, that is reported, at the row
    /// that was not read.
    pub fn load_records<R: Read>(
        &mut self,
        table: &str,
        records: &mut Records<R>,
    ) -> Result<(), Failure<StoreError>>
        requires expected { records.old.expected ≡ None }
        requires given { records.old.given ≡ 0 }
        requires fresh { records.old.failure ≡ None }
        ensures catalog { self.new.catalog ≡ self.old.catalog }
        ensures unchanged { OnErr result (self.new ≡ self.old) }
        ensures exact { records.new.failure ≡ None → IfSome records.old.records (λ recs. IsLoad self.old.tables self.new.tables table.now recs result) }
        // The same of records that are not known: some records were read, as many as were given.
        ensures some_records { records.new.failure ≡ None → (recs : List Fields) × IsLoad self.old.tables self.new.tables table.now recs result × OnOk result (length recs ≡ records.new.given) }
        ensures failed { IfSome records.new.failure (λ why. IsErrOf result (store_failure (reported why records.new.given))) }
        ensures stops { IfSome records.old.records (λ recs. LoadStops self.old.tables table.now recs result) }
    {
        let Some(i) = self.table_index(table) else {
            return Err(Failure::Error(StoreError::UndefinedTable));
        };
        match self.tables[i].append_records(self.alloc, records) {
            Ok(()) => Ok(()),
            Err(failure) => Err(store_failure(failure)),
        }
    }
}
