//! Columns of any type (PostgreSQL: Data Types).

ghost use Rattle.std.specs.Prelude.{◌≡◌, ◌+◌, ◌<◌, ◌≤◌, ◌^◌, ◌++◌, [], ◌∷◌, true, length, map, take, get_or, OnErr, OnOk};
ghost use Rattle.value.specs.Columns.{fits_type};
ghost use Rattle.value.specs.Datum.{null, null_or};
ghost use Rattle.columns.specs.Bits.{IsMaskOf};
ghost use Rattle.columns.specs.Data.{cells_of, type_of};
ghost use Rattle.columns.specs.Optional.{is_null};

use crate::bools::Bools;
use crate::ints::Ints;
use crate::texts::Texts;
use memory::Heap;
use std::alloc::AllocError;
use value::{ColType, Lent};

/// The values of a column, which are of one type or null.
#[derive(Drop)]
pub enum ColumnData<A: Heap> {
    /// Of type `bigint`.
    Ints(Ints<A>),
    /// Of type `text`.
    Texts(Texts<A>),
    /// Of type `boolean`.
    Bools(Bools<A>),
}

impl<A: Heap> ColumnData<A> {
    /// A column of a type with no values.
    pub fn new(alloc: A, data_type: ColType) -> ColumnData<A>
        ensures cells { cells_of result ≡ [] }
        ensures data_type { type_of result ≡ data_type }
    {
        match data_type {
            ColType::Bigint => ColumnData::Ints(Ints::new(alloc)),
            ColType::Text => ColumnData::Texts(Texts::new(alloc)),
            ColType::Boolean => ColumnData::Bools(Bools::new(alloc)),
        }
    }

    /// The number of values.
    pub fn len(&self) -> usize
        ensures { result ≡ length (cells_of self.now) }
    {
        match self {
            ColumnData::Ints(ints) => ints.len(),
            ColumnData::Texts(texts) => texts.len(),
            ColumnData::Bools(bools) => bools.len(),
        }
    }

    /// The value at an index, unless it is null.
    pub fn get(&self, i: usize) -> Option<Lent<'_>>
        requires { i < length (cells_of self.now) }
        ensures { null_or result ≡ get_or (cells_of self.now) i null }
    {
        match self {
            ColumnData::Ints(ints) => Some(Lent::Int(ints.get(i)?)),
            ColumnData::Texts(texts) => Some(Lent::Text(texts.get(i)?)),
            ColumnData::Bools(bools) => Some(Lent::Bool(bools.get(i)?)),
        }
    }

    /// The words of the list that is true at each null.
    pub fn nulls(&self) -> &[u64]
        ensures { IsMaskOf (map is_null (cells_of self.now)) result.now }
    {
        match self {
            ColumnData::Ints(ints) => ints.nulls(),
            ColumnData::Texts(texts) => texts.nulls(),
            ColumnData::Bools(bools) => bools.nulls(),
        }
    }

    /// One more value at the end, of the column's type or null. Where memory is refused, the column stays as it was.
    pub fn push(&mut self, value: Option<Lent<'_>>) -> Result<(), AllocError>
        requires room { length (cells_of self.old) < 2 ^ 63 }
        requires fits { fits_type (type_of self.old) (null_or value) ≡ true }
        ensures data_type { type_of self.new ≡ type_of self.old }
        ensures ok { OnOk result (cells_of self.new ≡ cells_of self.old ++ null_or value.entry ∷ []) }
        ensures err { OnErr result (cells_of self.new ≡ cells_of self.old) }
    {
        match (self, value) {
            (ColumnData::Ints(ints), Some(Lent::Int(number))) => ints.push(Some(number)),
            (ColumnData::Ints(ints), _) => ints.push(None),
            (ColumnData::Texts(texts), Some(Lent::Text(text))) => texts.push(text),
            (ColumnData::Texts(texts), _) => texts.push_null(),
            (ColumnData::Bools(bools), Some(Lent::Bool(truth))) => bools.push(Some(truth)),
            (ColumnData::Bools(bools), _) => bools.push(None),
        }
    }

    /// Drops the values from an index on.
    pub fn truncate(&mut self, len: usize)
        requires { len ≤ length (cells_of self.old) }
        ensures data_type { type_of self.new ≡ type_of self.old }
        ensures cells { cells_of self.new ≡ take len (cells_of self.old) }
    {
        match self {
            ColumnData::Ints(ints) => ints.truncate(len),
            ColumnData::Texts(texts) => texts.truncate(len),
            ColumnData::Bools(bools) => bools.truncate(len),
        }
    }
}
