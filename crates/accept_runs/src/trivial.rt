//! A column of one value, and a condition that is never true.

use joins::{Column, Condition};
use memory::Heap;
use tuples::Combo;
use value::{Lent, Val};

/// A column that is TRUE in each combination, or null in each.
#[derive(Clone, Copy, PartialEq, Eq)]
pub struct Always {
    /// True for null.
    pub is_null: bool,
}

impl<A: Heap> Column<A> for Always {
    ghost use Rattle.std.specs.Prelude.{true, if◌then◌else◌};
    ghost use Rattle.value.specs.Datum.{bool, null};

    ghost value = { λ s c. if s.is_null then null else bool true };

    fn value(&self, _combination: &Combo<A>) -> Val<'_, A> {
        if self.is_null {
            Val::Null
        } else {
            Val::Bool(true)
        }
    }

    fn key(&self, _combination: &Combo<A>) -> Option<Lent<'_>> {
        if self.is_null {
            None
        } else {
            Some(Lent::Bool(true))
        }
    }
}

/// A condition that is true on no combination.
#[derive(Drop)]
pub struct Never {}

impl<A: Heap> Condition<A> for Never {
    ghost use Rattle.std.specs.Prelude.{false};

    ghost passes = { λ s c. false };

    fn passes_both(&self, _one: &Combo<A>, _other: &Combo<A>) -> bool {
        false
    }
}
