//! The members of groups: their keys, and who evaluates their arguments.

ghost use Rattle.std.specs.Prelude.{◌≡◌, ◌<◌, List, length, IfOk, Ok, slice_index_or};
ghost use Rattle.memory.specs.Gives.{Gives};
ghost use Rattle.value.specs.Datum.{datum_of, null, row_of};
ghost use Rattle.eval.specs.Meaning.{Outcome};
ghost use Rattle.groups.specs.Members as spec;
ghost use Rattle.groups.specs.Progress.{HasMemory};

use eval::Row;
use expr::ColumnId;
use memory::{Failure, Heap, Items};
use std::alloc::AllocError;
use value::{Fault, Val, Value};

/// The values of the GROUP BY columns on the row.
pub fn key_on<A: Heap, R: Row<A>>(
    alloc: A,
    columns: &[ColumnId],
    row: &R,
) -> Result<Items<Value<A>, A>, AllocError>
    ensures { IfOk result (λ key. row_of key ≡ spec.key_on (R.cells row.now) columns.now) }
{
    let mut key = Items::new(alloc);
    for column in columns {
        key.push(row.cell(*column).to_value(alloc)?)?;
    }
    Ok(key)
}

/// The arguments of aggregates on one row.
pub trait Arguments<A: Heap> {
    /// Their outcomes, in written order.
    ghost outcomes: { Self → List Outcome };

    /// Each is there already: its value is lent, and takes no memory.
    ghost are_there: { Self → Type 0 };

    /// How many there are.
    fn count(&self) -> usize
        ensures { result ≡ length (outcomes self.now) };

    /// The value of the one at an index, or its fault.
    fn argument(&self, alloc: A, index: usize) -> Result<Val<'_, A>, Failure<Fault>>
        requires { index < length (outcomes self.now) }
        ensures value { Gives (λ v. datum_of v) result (slice_index_or (outcomes self.now) index (Ok null)) }
        ensures in_place { are_there self.now → HasMemory result };
}
