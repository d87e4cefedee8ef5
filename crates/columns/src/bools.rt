//! Columns of truth values (PostgreSQL: Boolean Type).

ghost use Rattle.std.specs.Prelude.{◌≡◌, ◌+◌, ◌<◌, ◌≤◌, ◌^◌, ◌++◌, [], ◌∷◌, length, map, take, get_or, OnErr, OnOk};
ghost use Rattle.columns.specs.Bits.{IsMaskOf};
ghost use Rattle.value.specs.Datum.{null};
ghost use Rattle.columns.specs.Optional.{is_null, truth_or_null};

use crate::masks::Mask;
use memory::Heap;
use std::alloc::AllocError;
use std::marker::Model;

/// A column of truth values. A contract sees the values.
#[derive(Drop)]
pub struct Bools<A: Heap> {
    trues: Mask<A>,
    nulls: Mask<A>,
}

impl<A: Heap> Model for Bools<A> {
    ghost use Rattle.std.specs.Prelude.{List};
    ghost use Rattle.value.specs.Datum.{Datum};

    ghost Value = { List Datum };

    ghost use Rattle.columns.specs.View.{bools_in, AreBools};

    ghost view = { bools_in };

    ghost invariant = { AreBools };
}

// Adds a truth value and its bit, or neither.
fn push_bits<A: Heap>(
    trues: &mut Mask<A>,
    nulls: &mut Mask<A>,
    value: bool,
    is_null: bool,
) -> Result<(), AllocError>
    requires room { length trues.old < 2 ^ 63 }
    requires null_room { length nulls.old < 2 ^ 63 }
    ensures trues { OnOk result (trues.new ≡ trues.old ++ value ∷ []) }
    ensures nulls { OnOk result (nulls.new ≡ nulls.old ++ is_null ∷ []) }
    ensures no_trues { OnErr result (trues.new ≡ trues.old) }
    ensures no_nulls { OnErr result (nulls.new ≡ nulls.old) }
{
    let before = trues.len();
    trues.push(value)?;
    match nulls.push(is_null) {
        Ok(()) => Ok(()),
        Err(error) => {
            trues.truncate(before);
            Err(error)
        }
    }
}

impl<A: Heap> Bools<A> {
    /// A column with no values. It asks for no memory.
    pub fn new(alloc: A) -> Bools<A>
        ensures { result ≡ [] }
    {
        Bools {
            trues: Mask::new(alloc),
            nulls: Mask::new(alloc),
        }
    }

    /// The number of values.
    pub fn len(&self) -> usize
        ensures { result ≡ length self.now }
    {
        self.nulls.len()
    }

    /// The truth value at an index, unless it is null.
    pub fn get(&self, i: usize) -> Option<bool>
        requires { i < length self.now }
        ensures { truth_or_null result ≡ get_or self.now i null }
    {
        if self.nulls.get(i) {
            None
        } else {
            Some(self.trues.get(i))
        }
    }

    /// The words of the list that is true at each null.
    pub fn nulls(&self) -> &[u64]
        ensures { IsMaskOf (map is_null self.now) result.now }
    {
        self.nulls.words()
    }

    /// One more truth value at the end, or a null. Where memory is refused, the column stays as it was.
    pub fn push(&mut self, value: Option<bool>) -> Result<(), AllocError>
        requires { length self.old < 2 ^ 63 }
        ensures ok { OnOk result (self.new ≡ self.old ++ truth_or_null value ∷ []) }
        ensures err { OnErr result (self.new ≡ self.old) }
    {
        match value {
            Some(truth) => push_bits(&mut self.trues, &mut self.nulls, truth, false),
            None => push_bits(&mut self.trues, &mut self.nulls, false, true),
        }
    }

    /// Drops the values from an index on.
    pub fn truncate(&mut self, len: usize)
        requires { len ≤ length self.old }
        ensures { self.new ≡ take len self.old }
    {
        self.trues.truncate(len);
        self.nulls.truncate(len);
    }
}
