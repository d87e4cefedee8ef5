//! The keys of groups, in the order of rows.

ghost use Rattle.std.specs.Prelude.{Some, refl};
ghost use Rattle.std.specs.Cmp.{eq_by_cmp_equiv, on_equiv, on_per, on_po, on_total, partial_equiv_from_equiv, po};
ghost use Rattle.value.specs.Orders.{row_cmp};
ghost use Rattle.value.proofs.DatumOrder.{row_cmp_total};
ghost use Rattle.groups.specs.Groups.{same_key};
ghost use Rattle.groups.specs.View.{key_of};

use memory::{Heap, Items};
use std::cmp::Ordering;
use value::{Value, cmp_rows};

/// The values of the GROUP BY columns.
#[derive(Drop)]
pub struct Key<A: Heap> {
    /// The values.
    pub values: Items<Value<A>, A>,
}

impl<A: Heap> PartialEq for Key<A> {
    ghost eq = { λ k l. same_key (key_of k) (key_of l) };

    ghost laws = { on_per key_of (partial_equiv_from_equiv (eq_by_cmp_equiv row_cmp_total)) };

    fn eq(&self, other: &Key<A>) -> bool {
        self.cmp(other).is_eq()
    }
}

impl<A: Heap> Eq for Key<A> {
    ghost laws = { on_equiv key_of (eq_by_cmp_equiv row_cmp_total) };
}

impl<A: Heap> PartialOrd for Key<A> {
    ghost partial_cmp = { λ k l. Some (row_cmp (key_of k) (key_of l)) };

    ghost laws = { on_po key_of (po row_cmp_total (λ x y. refl)) };

    fn partial_cmp(&self, other: &Key<A>) -> Option<Ordering> {
        Some(self.cmp(other))
    }
}

impl<A: Heap> Ord for Key<A> {
    ghost cmp = { λ k l. row_cmp (key_of k) (key_of l) };

    ghost total = { on_total key_of row_cmp_total };

    ghost matches_partial_cmp = { λ k l. refl };

    ghost matches_eq = { λ k l. refl };

    fn cmp(&self, other: &Key<A>) -> Ordering {
        cmp_rows(self.values.as_slice(), other.values.as_slice())
    }
}
