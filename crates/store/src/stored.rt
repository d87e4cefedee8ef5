//! A table of a store: its contents, and the indexes that are derived from them.

ghost use Rattle.std.specs.Prelude.{◌≡◌, [], List, IfOk, IfSome, IsErrOf, OnErr, OnOk, ◌-◌, None, length, option_map, take};
ghost use Rattle.csv_records.specs.Left.{records_of};
ghost use Rattle.memory.specs.Gives.{Gives};
ghost use Rattle.tables.specs.Loading.{Fields, StopsAfterGood, UnlessUnread, appended, reported};
ghost use Rattle.tables.specs.declared.TheConstants.{MAX_ROWS};
ghost use Rattle.value.specs.Columns.{columns_of};
ghost use Rattle.row_objects.specs.ColumnNames.{column_index};
ghost use Rattle.row_objects.specs.TableChanges.{with_last};
ghost use Rattle.store.specs.Database.{empty_table};
ghost use Rattle.store.specs.Derived as spec;
ghost use Rattle.store.specs.Derived.{AreDerived, IsDerived, kept_columns, first_rows};
ghost use Rattle.store.specs.Loads.{due_rows};
ghost use Rattle.store.specs.View.{stored_of};

use csv_records::Records;
use indexes::{IndexRows, index_on, remade};
use memory::{Failure, Heap, Text};
use row_objects::column_index;
use std::alloc::AllocError;
use std::io::Read;
use tables::{LoadError, Table};
use value::{Column, copy_columns};

/// A table's name and contents, and the indexes that are derived from the contents.
#[derive(Drop)]
pub(crate) struct Stored<A: Heap> {
    pub name: Text<A>,
    pub contents: Table<A>,
    pub indexes: Vec<IndexRows<A>, A>,
}

/// The number of a column, from 1, as plans have it.
pub fn column_number(column: usize) -> u64
    ensures { result ≡ spec.column_number column }
{
    (column as u64).saturating_add(1)
}

/// A new table, with no rows and no index.
pub(crate) fn new_table<A: Heap>(
    alloc: A,
    name: &str,
    columns: &[Column<A>],
) -> Result<Stored<A>, AllocError>
    ensures stored { IfOk result (λ t. stored_of t ≡ (name.now, empty_table (columns_of columns.now))) }
    ensures derived { IfOk result (λ t. IsDerived t) }
    ensures indexes { IfOk result (λ t. t.indexes.items ≡ []) }
{
    let columns = copy_columns(alloc, columns)?;
    let name = Text::new(alloc, name)?;
    let contents = Table::new(alloc, columns)?;
    Ok(Stored {
        name,
        contents,
        indexes: Vec::new(alloc),
    })
}

impl<A: Heap> Stored<A> {
    // Derives the indexes anew, after rows were added; where memory runs out, drops the rows from a number on.
    fn derive_anew(&mut self, alloc: A, before: u64) -> Result<(), AllocError>
        requires { AreDerived (first_rows before self.old.contents) self.old.indexes.items }
        ensures name { self.new.name ≡ self.old.name }
        ensures derived { IsDerived self.new }
        ensures indexes { kept_columns self.new.indexes.items ≡ kept_columns self.old.indexes.items }
        ensures ok { OnOk result (self.new.contents ≡ self.old.contents) }
        ensures err { OnErr result (self.new.contents ≡ first_rows before self.old.contents) }
    {
        match remade(alloc, &self.contents, &self.indexes) {
            Ok(indexes) => {
                self.indexes = indexes;
                Ok(())
            }
            Err(error) => {
                self.contents.truncate(before);
                Err(error)
            }
        }
    }

    /// Adds the rows that a reader gives, as the table does.
    pub(crate) fn append<R: Read + Drop>(
        &mut self,
        alloc: A,
        reader: R,
    ) -> Result<(), Failure<LoadError>>
        requires { IsDerived self.old }
        ensures name { self.new.name ≡ self.old.name }
        ensures derived { IsDerived self.new }
        ensures indexes { kept_columns self.new.indexes.items ≡ kept_columns self.old.indexes.items }
        ensures columns { self.new.contents.columns ≡ self.old.contents.columns }
        ensures unchanged { OnErr result (self.new.contents ≡ self.old.contents) }
        ensures exact { IfSome (R.remaining reader) (λ bytes. UnlessUnread result (Gives (λ _. self.new.contents.rows) result (appended self.old.contents.rows (due_rows self.old.contents (records_of bytes))))) }
        ensures some_records { UnlessUnread result ((recs : List Fields) × Gives (λ _. self.new.contents.rows) result (appended self.old.contents.rows (due_rows self.old.contents recs))) }
        ensures stops { IfSome (R.remaining reader) (λ bytes. StopsAfterGood self.old.contents.columns (MAX_ROWS - length self.old.contents.rows) (records_of bytes) result) }
    {
        let before = self.contents.rows();
        self.contents.append(reader)?;
        self.derive_anew(alloc, before)?;
        Ok(())
    }

    /// Adds the rows of records, as the table does.
    pub(crate) fn append_records<R: Read>(
        &mut self,
        alloc: A,
        records: &mut Records<R>,
    ) -> Result<(), Failure<LoadError>>
        requires derived { IsDerived self.old }
        requires expected { records.old.expected ≡ None }
        requires given { records.old.given ≡ 0 }
        requires fresh { records.old.failure ≡ None }
        ensures name { self.new.name ≡ self.old.name }
        ensures derived { IsDerived self.new }
        ensures indexes { kept_columns self.new.indexes.items ≡ kept_columns self.old.indexes.items }
        ensures columns { self.new.contents.columns ≡ self.old.contents.columns }
        ensures unchanged { OnErr result (self.new.contents ≡ self.old.contents) }
        ensures exact { records.new.failure ≡ None → IfSome records.old.records (λ recs. Gives (λ _. self.new.contents.rows) result (appended self.old.contents.rows (due_rows self.old.contents recs))) }
        ensures some_records { records.new.failure ≡ None → (recs : List Fields) × Gives (λ _. self.new.contents.rows) result (appended self.old.contents.rows (due_rows self.old.contents recs)) × OnOk result (length recs ≡ records.new.given) }
        ensures failed { IfSome records.new.failure (λ why. IsErrOf result (reported why records.new.given)) }
        ensures stops { IfSome records.old.records (λ recs. StopsAfterGood self.old.contents.columns (MAX_ROWS - length self.old.contents.rows) recs result) }
    {
        let before = self.contents.rows();
        self.contents.append_records(records)?;
        self.derive_anew(alloc, before)?;
        Ok(())
    }

    /// Adds an index on the column of that name, if there is one; where memory runs out, none.
    pub(crate) fn add_index(&mut self, alloc: A, column: &str) -> Result<(), AllocError>
        requires { IsDerived self.old }
        ensures name { self.new.name ≡ self.old.name }
        ensures contents { self.new.contents ≡ self.old.contents }
        ensures derived { IsDerived self.new }
        ensures made { OnOk result (kept_columns self.new.indexes.items ≡ with_last (kept_columns self.old.indexes.items) (option_map spec.column_number (column_index self.old.contents.columns column.now))) }
        ensures unchanged { OnErr result (kept_columns self.new.indexes.items ≡ kept_columns self.old.indexes.items) }
    {
        if let Some(index) = column_index(self.contents.columns(), column) {
            let made = index_on(alloc, &self.contents, column_number(index))?;
            self.indexes.push(made)?;
        }
        Ok(())
    }

    /// Drops the indexes from a number on, which counts from 0.
    pub(crate) fn truncate_indexes(&mut self, count: usize)
        requires { IsDerived self.old }
        ensures name { self.new.name ≡ self.old.name }
        ensures contents { self.new.contents ≡ self.old.contents }
        ensures derived { IsDerived self.new }
        ensures indexes { kept_columns self.new.indexes.items ≡ take count (kept_columns self.old.indexes.items) }
    {
        self.indexes.truncate(count);
    }
}
