//! Values as other types.

ghost use Rattle.std.specs.Prelude.{◌≡◌, Err};
ghost use Rattle.memory.specs.Gives.{Gives};
ghost use Rattle.value.specs.Datum.{datum_of};
ghost use Rattle.value.specs.Casts.{cast_of};

use crate::reading::read_bigint;
use crate::types::{ColType, FaultKind, Val};
use crate::writing::bigint_text;
use memory::{Failure, Heap};
use std::borrow::CowStr;

/// A value as another type: a text as the bigint that it spells, a bigint as its text; null stays null (PostgreSQL:
/// Type Casts).
pub fn cast<'a, A: Heap>(
    alloc: A,
    to: ColType,
    value: Val<'a, A>,
) -> Result<Val<'a, A>, Failure<FaultKind>>
    ensures value { Gives datum_of result (cast_of to (datum_of value.entry)) }
    // Only a text is made in memory.
    ensures memory { result ≡ Err Failure.OutOfMemory → to ≡ ColType.Text }
{
    match (to, value) {
        (ColType::Bigint, Val::Text(text)) => match read_bigint(text.as_str().as_bytes()) {
            Ok(n) => Ok(Val::Int(n)),
            Err(kind) => Err(Failure::Error(kind)),
        },
        (ColType::Text, Val::Int(n)) => Ok(Val::Text(CowStr::Owned(bigint_text(alloc, n)?))),
        (_, value) => Ok(value),
    }
}
