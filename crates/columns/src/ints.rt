//! Columns of numbers (PostgreSQL: Numeric Types, `bigint`).

ghost use Rattle.std.specs.Prelude.{◌≡◌, ◌+◌, ◌<◌, ◌≤◌, ◌^◌, ◌++◌, [], ◌∷◌, length, map, take, get_or, Bool, List, OnErr, OnOk};
ghost use Rattle.columns.specs.Bits.{IsMaskOf};
ghost use Rattle.columns.specs.Columns.{ints_of};
ghost use Rattle.value.specs.Datum.{null};
ghost use Rattle.columns.specs.Optional.{is_null, number_or_null};

use crate::masks::Mask;
use memory::Heap;
use std::alloc::AllocError;
use std::marker::Model;

/// A column of numbers. A contract sees the values.
#[derive(Drop)]
pub struct Ints<A: Heap> {
    values: Vec<i64, A>,
    nulls: Mask<A>,
}

impl<A: Heap> Model for Ints<A> {
    ghost use Rattle.std.specs.Prelude.{List};
    ghost use Rattle.value.specs.Datum.{Datum};

    ghost Value = { List Datum };

    ghost use Rattle.columns.specs.View.{ints_in, AreInts};

    ghost view = { ints_in };

    ghost invariant = { AreInts };
}

// Adds a number and its bit, or neither.
fn push_both<A: Heap>(
    values: &mut Vec<i64, A>,
    nulls: &mut Mask<A>,
    value: i64,
    is_null: bool,
) -> Result<(), AllocError>
    requires room { length nulls.old < 2 ^ 63 }
    ensures values { OnOk result (values.new.items ≡ values.old.items ++ value ∷ []) }
    ensures nulls { OnOk result (nulls.new ≡ nulls.old ++ is_null ∷ []) }
    ensures no_values { OnErr result (values.new.items ≡ values.old.items) }
    ensures no_nulls { OnErr result (nulls.new ≡ nulls.old) }
{
    let before = nulls.len();
    nulls.push(is_null)?;
    match values.push(value) {
        Ok(()) => Ok(()),
        Err(error) => {
            nulls.truncate(before);
            Err(AllocError::from(error))
        }
    }
}

impl<A: Heap> Ints<A> {
    /// A column with no values. It asks for no memory.
    pub fn new(alloc: A) -> Ints<A>
        ensures { result ≡ [] }
    {
        Ints {
            values: Vec::new(alloc),
            nulls: Mask::new(alloc),
        }
    }

    /// The number of values.
    pub fn len(&self) -> usize
        ensures { result ≡ length self.now }
    {
        self.nulls.len()
    }

    /// The number at an index, unless it is null.
    pub fn get(&self, i: usize) -> Option<i64>
        requires { i < length self.now }
        ensures { number_or_null result ≡ get_or self.now i null }
    {
        if self.nulls.get(i) {
            None
        } else {
            Some(self.values[i])
        }
    }

    /// The numbers, and the words of the list that is true at each null; a number at a null means nothing.
    pub fn lanes(&self) -> (&[i64], &[u64])
        ensures { (bits : List Bool) × (length bits ≡ length result.0.now) × IsMaskOf bits result.1.now × (ints_of result.0.now bits ≡ self.now) }
    {
        (self.values.as_slice(), self.nulls.words())
    }

    /// The words of the list that is true at each null.
    pub fn nulls(&self) -> &[u64]
        ensures { IsMaskOf (map is_null self.now) result.now }
    {
        self.nulls.words()
    }

    /// One more number at the end, or a null. Where memory is refused, the column stays as it was.
    pub fn push(&mut self, value: Option<i64>) -> Result<(), AllocError>
        requires { length self.old < 2 ^ 63 }
        ensures ok { OnOk result (self.new ≡ self.old ++ number_or_null value ∷ []) }
        ensures err { OnErr result (self.new ≡ self.old) }
    {
        match value {
            Some(number) => push_both(&mut self.values, &mut self.nulls, number, false),
            None => push_both(&mut self.values, &mut self.nulls, 0, true),
        }
    }

    /// Drops the values from an index on.
    pub fn truncate(&mut self, len: usize)
        requires { len ≤ length self.old }
        ensures { self.new ≡ take len self.old }
    {
        self.values.truncate(len);
        self.nulls.truncate(len);
    }
}
