//! A source that takes a thousand steps for each combination.

ghost use Rattle.std.specs.Prelude.{◌≡◌, ◌+◌, ◌*◌, ◌≤◌, length};

use memory::Heap;
use row_sources::Source;
use std::alloc::AllocError;
use std::collections::VecDeque;
use tuples::{Combo, Work};

/// Combinations in memory, each of which takes a thousand steps.
#[derive(Drop)]
pub struct SlowSource<A: Heap> {
    combinations: VecDeque<Combo<A>, A>,
}

impl<A: Heap> SlowSource<A> {
    /// These, in their order.
    pub fn new(combinations: Vec<Combo<A>, A>) -> SlowSource<A>
        ensures combinations { ⟦<SlowSource<A> as Source<A>>⟧.coming result ≡ combinations.items }
    {
        SlowSource {
            combinations: VecDeque::from(combinations),
        }
    }
}

// A thousand steps.
fn take_steps(work: &mut Work)
    ensures { work.new ≤ work.old + 1000 }
{
    for _ in 0..1000u64 {
        work.tick();
    }
}

impl<A: Heap> Source<A> for SlowSource<A> {
    ghost use Rattle.std.specs.Prelude.{None, ◌*◌, length};

    ghost coming = { λ s. s.combinations.items };

    ghost spends = { λ s. 1000 * length (s.combinations.items) };

    ghost key = { λ s. None };

    fn next(&mut self, work: &mut Work) -> Result<Option<Combo<A>>, AllocError> {
        let Some(combination) = self.combinations.pop_front() else {
            return Ok(None);
        };
        take_steps(work);
        Ok(Some(combination))
    }

    ghost ordered = { λ s. tt };
}
