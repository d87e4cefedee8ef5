//! The keys of plans.

ghost use Rattle.std.specs.Prelude.{◌≡◌, IfOk};
ghost use Rattle.shared_plans.specs.View.{key_of};

use memory::Heap;
use std::alloc::AllocError;

/// What a plan was made for: a text, the role that asks, and how many changes and loads were accepted before.
#[derive(Drop)]
#[derive_where(PartialEq, Eq, Hash)]
pub struct PlanKey<A: Heap> {
    text: String<A>,
    role: String<A>,
    changes: u64,
    loads: u64,
}

impl<A: Heap> PlanKey<A> {
    /// The key of a role's text after so many changes and loads. It fails where memory runs out.
    pub fn new(
        alloc: A,
        text: &str,
        role: &str,
        changes: u64,
        loads: u64,
    ) -> Result<PlanKey<A>, AllocError>
        ensures { IfOk result (λ key. key_of key ≡ record { text = text.now; role = role.now; changes = changes; loads = loads }) }
    {
        Ok(PlanKey {
            text: String::from_str(alloc, text)?,
            role: String::from_str(alloc, role)?,
            changes,
            loads,
        })
    }
}
