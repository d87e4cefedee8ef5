//! The order of faults.

ghost use Rattle.std.specs.Prelude.{◌≡◌, Some};
ghost use Rattle.bags.specs.Least.{lesser};
ghost use Rattle.groups.specs.Stages.{fault_cmp};

use std::cmp::Ordering;
use value::Fault;

// By offset, then by kind.
fn fault_cmp(a: &Fault, b: &Fault) -> Ordering
    ensures { result ≡ fault_cmp a.now b.now }
{
    a.offset.cmp(&b.offset).then(a.kind.cmp(&b.kind))
}

// The lesser of a fault and the least one before it.
pub(crate) fn lesser(known: Option<Fault>, fault: Fault) -> Option<Fault>
    ensures { result ≡ lesser fault_cmp known (Some fault) }
{
    match known {
        None => Some(fault),
        Some(before) => {
            if fault_cmp(&before, &fault).is_gt() {
                Some(fault)
            } else {
                Some(before)
            }
        }
    }
}
