//! What a role reads of a table over what it read of it.

ghost use Rattle.std.specs.Prelude.{◌≡◌, ◌||◌, IfOk};
ghost use Rattle.value.specs.Names.{Name};
ghost use Rattle.store.specs.Database.{Database};
ghost use Rattle.access_matrix.specs.Sights.{IsGain, IsSight, is_any};

use crate::counting::count_gained;
use crate::names::push_absent;
use crate::sights::Sight;
use memory::{Heap, Items};
use std::alloc::AllocError;

/// The rows and columns of a table that a role gains.
#[derive(Drop)]
pub(crate) struct Gain<'s, A: Heap> {
    /// The number of rows.
    pub rows: usize,
    /// The names of the columns.
    pub columns: Items<&'s str, A>,
}

/// What the role gains from one sight to another.
pub(crate) fn gain_of<'s, A: Heap>(
    alloc: A,
    old: &Sight<'_, A>,
    new: &Sight<'s, A>,
) -> Result<Gain<'s, A>, AllocError>
    ensures { (before after : Database) (role table : Name) → IsSight before role table old.now → IsSight after role table new.now → IfOk result (λ g. IsGain before after role table g) }
{
    let mut columns = Items::new(alloc);
    push_absent(&mut columns, new.columns.as_slice(), old.columns.as_slice())?;
    Ok(Gain {
        rows: count_gained(&new.rows, &old.rows),
        columns,
    })
}

/// True where it is not nothing.
pub(crate) fn is_any<A: Heap>(gain: &Gain<'_, A>) -> bool
    ensures { result ≡ is_any gain.now }
{
    gain.rows > 0 || gain.columns.len() > 0
}

/// True where one of the two is not nothing.
pub(crate) fn are_any<A: Heap>(gained: &Gain<'_, A>, lost: &Gain<'_, A>) -> bool
    ensures { result ≡ (is_any gained.now || is_any lost.now) }
{
    is_any(gained) || is_any(lost)
}
